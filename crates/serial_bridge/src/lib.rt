//! From the serial run of the commit protocol to the serial run of transactions.
//!
//! Promises: where the parts of an attempt are what the state below its number has, and its replies and writes are
//! those of its transaction's operations over these parts, they are what the transaction does alone on that state
//! (`step`). So attempts whose reads are serial are a serial run of their transactions (`run`), those up to an epoch
//! give the state as of it (`epochs`), and the decided attempts of every sound story, in order of number, are a run
//! that leaves each key's last decided write (`story`).
//! Terms: *part*, what an attempt read and must stay valid; an attempt *is* a transaction's (`IsAttemptOf`) where each
//! operation sees what the transaction wrote before it, else what some part has.
//! Layout: `Transaction` says what a transaction sees and does, `Bridge` what follows, `Laws` has the proofs in the
//! form that crates above cite; `WriteSets` says that attempts write their write sets, and which run attempts behind
//! others are, with proofs in `WriteLaws`; proofs/Examples works some transactions by hand.
//! Design: docs/COMMIT.md, "From reads to replies".
#![tactic(auto)]

ghost use Rattle.serial_bridge.specs.Bridge.{AttemptsStep, SerialReadsRun, EpochsRun, SoundStoryRuns};

use commit_core::commits_are_serial;

/// Parts that vouch, with the transaction's own writes, give the serial step's verdict, replies and changes.
pub fn commits_are_transactions()
    ensures step { AttemptsStep }
    ensures run { SerialReadsRun }
    ensures epochs { EpochsRun }
    ensures story { SoundStoryRuns }
{
    commits_are_serial();
}

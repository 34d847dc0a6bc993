//! Transactions over pages that threads share.
//!
//! Promises: a transaction is begun unless the clock is at the last draws (`HasBegun`). A read answers the own
//! write, else what was first read, else the last decided write as the call saw it (`IsValueRead`). Reads, writes,
//! additions and subtractions are turns of the serial step over what was read (`HasDone`, `HasStopped`); they hold
//! the pages on the way to their keys, and a write brings its record's pages into memory. A commit is one attempt
//! more in the history, with just the parts and writes of its sets, which counts and read exactly what the state
//! below its number has (`HasCommitted`). The calls are the operations of a transaction, and its commit an attempt
//! of it (`calls_are_transactions`). Each refusal tells its whole cause: a conflict at a record, a pointer or a
//! slot, no usable slot, or a full set (`RefusesRead`, `RefusesWrite`, `RefusesAlter`, `RefusesCommit`). Calls on keys
//! of trees, in crates above, are refused by `refuse_on`, which asks that the word is on the way to the key, or that the
//! full set lacks room for what the call needs (`IsRefusedOn`). After a refusal, a commit or an abort the pass has no
//! lock and holds no slot (`HasRefused`, `IsOver`). No call takes memory or waits; operations and commits tell how many
//! steps they take at most (`read_most`, `write_most`, `alter_most`, `commit_steps`), and operations how many slots they
//! hold more.
//! Terms: *entry*, a record as the transaction first read it; *part*, what an attempt has of an entry or of a
//! pointer at which the pages in memory were left; *place* of a word, its number in the table, from which follows
//! what it is.
//! Layout: specs/Places.antt, where words stand; specs/Live.antt, what a transaction has; specs/Turning.antt and
//! specs/Altering.antt, what operations come to; specs/Calls.antt, specs/Refusing.antt and specs/Needs.antt, why calls
//! are refused; specs/Keeping.antt, what the sets keep; specs/Committing.antt, what a commit leaves; specs/Steps.antt,
//! what the parts of a call do. In proofs/ `PlaceLaws` says that words stand apart, `StayLaws` and `GrowLaws` what
//! stays, `LeaveLaws` what becomes of the slots that are held, `FoundLaws` and `BroughtLaws` what walks leave of a
//! transaction, `DueLaws` what operations are refused for, `TurnLaws` what they come to, and each part of a commit
//! has a file.
//! Design: docs/COMMIT.md and docs/PAGES.md.
#![tactic(auto)]

ghost use Rattle.page_commit.specs.Running.{BeginsRun, GoesOnRun, EndsRun, CommitsRun, CommitsEnd};

mod checking;
mod committing;
mod leaving;
mod locking;
mod places;
mod publishing;
mod reading;
mod refusing;
mod txn;
mod writing;

pub use places::is_array;
pub use refusing::refuse_on;
pub use txn::Txn;
pub use writing::By;

/// The calls of a transaction are its operations, and its commit is an attempt of it.
pub fn calls_are_transactions()
    ensures begins { BeginsRun }
    ensures goes_on { GoesOnRun }
    ensures ends { EndsRun }
    ensures commits { CommitsRun }
    ensures commits_end { CommitsEnd }
{}

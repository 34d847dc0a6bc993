// What is told behind the rounds of a run in brief.
ghost use Rattle.std.specs.Prelude.{◌≡◌, List, true};
ghost use Rattle.log_writer.specs.Vault.{IsWhole};
ghost use Rattle.log_writer.specs.declared.vault.Vault.{Vault};
ghost use Rattle.joint_crashes.specs.VaultReads.{VaultOnlyReads};
ghost use Rattle.tx_script.specs.Run.{Ran};
ghost use Rattle.brief_output.specs.Brief.{tally_of};
ghost use Rattle.program_calls.specs.InBrief.{SumsRead, ended_behind, ended_refused};
ghost use Rattle.program_calls.specs.OnTheWay.{AddsText, TellsInBrief};
ghost use Rattle.program_calls.specs.Vaults.{vaults_of};

use crate::ending::Ending;
use crate::kept::ending_of_refusal;
use crate::teller::Teller;
use brief_output::{put_brief, total_of};
use lists::OrMemory;
use log_writer::Vault;
use outside::{Disk, Failed, Sink};
use recovery_core::{RecoverFault, recover};
use std::alloc::Global;
use text_output::Printer;

/// Adds what the rounds of a run that ended so came to, with the sum of all values that recovery gives from the vault
/// then; nothing where no round was run. No sum is told where recovery is refused. Gives how the call ends: as the run
/// did, or where that finished, and recovery was refused, as recovery is.
pub(crate) fn tell_in_brief<K: Sink, D: Disk>(
    alloc: Global,
    teller: Teller,
    ended: Ending,
    printer: &mut Printer<'_, K>,
    vault: &mut Vault<D>,
) -> Result<Ending, Failed>
    requires whole { teller.tally.ran ≡ true → IsWhole vault.old }
    ensures reads { VaultOnlyReads D.tells D.clock D.image_at D.faults vault.old vault.new }
    ensures tells { (was : Vault D) (rans : List Ran) → teller.tally ≡ tally_of rans
        → TellsInBrief (vaults_of D.tells D.clock D.image_at D.faults was vault.new) vault.old rans ended
        (AddsText printer.old printer.new result) }
{
    if !teller.tally.ran {
        return Ok(ended);
    }
    let (total, refusal) = read_total(alloc, vault);
    put_brief(printer, teller.tally, total)?;
    Ok(ended_behind(ended, refusal))
}

// The sum of all values that the vault keeps, or why it can't be read.
fn read_total<D: Disk>(
    alloc: Global,
    vault: &mut Vault<D>,
) -> (Option<u128>, Option<OrMemory<RecoverFault>>)
    requires { IsWhole vault.old }
    ensures reads { VaultOnlyReads D.tells D.clock D.image_at D.faults vault.old vault.new }
    ensures total { (was : Vault D)
        → SumsRead (vaults_of D.tells D.clock D.image_at D.faults was vault.new) vault.old result.0 result.1 }
{
    match recover(alloc, vault) {
        Ok(kept) => (Some(total_of(&kept.state)), None),
        Err(refusal) => (None, Some(refusal)),
    }
}

// How the call ends whose run ended so, and whose sum was refused, if it was.
fn ended_behind(ended: Ending, refusal: Option<OrMemory<RecoverFault>>) -> Ending
    ensures { result ≡ ended_behind ended refusal }
{
    match refusal {
        Some(refusal) => ended_refused(ended, refusal),
        None => ended,
    }
}

// Where it finished, it ends as recovery is refused.
fn ended_refused(ended: Ending, refusal: OrMemory<RecoverFault>) -> Ending
    ensures { result ≡ ended_refused ended refusal }
{
    match ended {
        Ending::Finished => ending_of_refusal(refusal),
        other => other,
    }
}

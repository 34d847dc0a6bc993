// What was written to the devices of a database before, by whomever, is brought to the devices themselves.
ghost use Rattle.std.specs.Prelude.{◌≡◌, ◌<◌, ℕ, IsSome};
ghost use Rattle.std.specs.List.{Contains};
ghost use Rattle.log_writer.specs.Vault.{disk_in, IsWhole};
ghost use Rattle.joint_crashes.specs.Synced.{TakesOver, SyncsAll};
ghost use Rattle.joint_crashes.specs.Syncs.{IsBankIn, SyncsEach, first_fault};

use crate::settling::BANKS;
use log_writer::{Vault, write_again};
use outside::{Device, Disk, Failed};

/// Makes a database ready to be changed, whoever used it last and however that ended, or tells the first device that
/// can't be.
///
/// A process that died may have left writes that reads show and a stop loses. Were one of them a savepoint's valid byte,
/// log files could be cut of which that savepoint counts nothing. Then a stop would lose the byte, and leave the
/// savepoint before it, which counts them. So each device is synced before anything else is written or cut. Then a byte
/// of the save is written again, and synced (`log_writer::write_again` says why). Each stop meanwhile leaves of the save
/// what one before might have left, or a device that names the same savepoint, and of the others what one before might
/// have left.
pub fn take_over<D: Disk>(vault: &mut Vault<D>) -> Result<(), Device>
    requires whole { IsWhole vault.old }
    ensures { TakesOver D.tells D.clock D.image_at D.faults D.settled vault.old vault.new result }
{
    sync_all(vault)?;
    match write_again(&mut vault.save) {
        Ok(()) => Ok(()),
        Err(Failed) => Err(Device::Save),
    }
}

/// Syncs each device, also behind one that can't be, and tells the first that couldn't. No device is written. So what is
/// told of the database then is there behind a stop, whoever wrote it.
pub fn sync_all<D: Disk>(vault: &mut Vault<D>) -> Result<(), Device>
    requires whole { IsWhole vault.old }
    ensures { SyncsAll D.tells D.clock D.image_at D.faults D.settled vault.old vault.new result }
{
    let save = sync_device(vault, Device::Save);
    let snaps = sync_device(vault, Device::Snaps);
    let banks = sync_banks(vault, &BANKS);
    earlier(earlier(save, snaps), banks)
}

// The fault of the first call, or that of the second.
fn earlier(first: Result<(), Device>, second: Result<(), Device>) -> Result<(), Device>
    ensures { result ≡ first_fault first second }
{
    match first {
        Ok(()) => second,
        Err(device) => Err(device),
    }
}

fn sync_device<D: Disk>(vault: &mut Vault<D>, device: Device) -> Result<(), Device>
    requires whole { IsWhole vault.old }
    requires there { IsSome (disk_in vault.old device) }
    ensures { SyncsEach D.tells D.clock D.image_at D.faults D.settled (λ other. other ≡ device)
        vault.old vault.new result }
{
    match vault.sync_in(device) {
        Ok(()) => Ok(()),
        Err(Failed) => Err(device),
    }
}

// Syncs the log files of these numbers.
fn sync_banks<D: Disk>(vault: &mut Vault<D>, numbers: &[u8]) -> Result<(), Device>
    requires whole { IsWhole vault.old }
    requires numbers { (n : ℕ) → Contains numbers.now n → n < 16 }
    ensures { SyncsEach D.tells D.clock D.image_at D.faults D.settled (IsBankIn numbers.now)
        vault.old vault.new result }
{
    let mut outcome = Ok(());
    for number in numbers {
        let synced = sync_device(vault, Device::Bank(*number));
        outcome = earlier(outcome, synced);
    }
    outcome
}

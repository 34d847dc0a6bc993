// The names of a database's files.
ghost use Rattle.std.specs.Prelude.{◌≡◌, ◌++◌, codes, IfOk};
ghost use Rattle.std.specs.String.{string_bytes};
ghost use Rattle.database_files.specs.Names.{device_name};

use outside::Device;
use std::alloc::{AllocError, Global};

/// The file of a device in a folder.
pub fn device_path(alloc: Global, folder: &str, device: Device) -> Result<String, AllocError>
    ensures { IfOk result (λ path. string_bytes path
        ≡ folder.now ++ codes "/" ++ device_name device) }
{
    let name = device_name(alloc, device)?;
    format!(in alloc; "{folder}/{name}")
}

// The name of a device, as it is told where it can't be had.
fn device_name(alloc: Global, device: Device) -> Result<String, AllocError>
    ensures { IfOk result (λ name. string_bytes name ≡ device_name device) }
{
    match device {
        Device::Save => String::from_str(alloc, "save"),
        Device::Snaps => String::from_str(alloc, "snaps"),
        Device::Bank(number) => format!(in alloc; "bank{number}"),
    }
}

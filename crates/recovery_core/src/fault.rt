// Why a database can't be recovered.

use outside::Device;

/// Why nothing is recovered from a database.
#[derive(Clone, Copy, Debug, PartialEq, Eq)]
pub enum RecoverFault {
    /// This device's count of faults rose.
    Device(Device),
    /// What this device holds is not in its grammar, from this byte on.
    Damaged { device: Device, at: u64 },
}

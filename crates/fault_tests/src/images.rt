// What a stop may leave of devices, by the calls that they recorded. Between two syncs each range that was written, and
// what lies past the old end, may hold any bytes; of a file that was cut any of its last bytes may still be there.
ghost use Rattle.std.specs.Prelude.{◌≤◌};

use super::*;
use outside::Call;

// What is left of a call that no sync is behind: nothing, all of it, so many 256ths of its range from the front, or this
// byte in all of its range.
#[derive(Clone, Copy)]
pub(super) enum Pending {
    Lost,
    Kept,
    Torn(usize),
    Other(u8),
}

// Puts bytes over those of a file, from a byte on that it has or ends at; leaves a file that is shorter.
fn put(alloc: Global, file: &mut Vec<u8>, at: usize, bytes: &[u8]) -> Result<(), AllocError> {
    if at > file.len() {
        return Ok(());
    }
    let behind = file[at.saturating_add(bytes.len()).min(file.len())..].to_vec(alloc)?;
    file.truncate(at);
    file.extend_from_slice(bytes)?;
    file.extend_from_slice(&behind)
}

// So many 256ths of a length.
fn part_of(length: usize, part: usize) -> usize
    ensures { result ≤ length }
{
    (length.wrapping_mul(part) / 256).min(length)
}

fn write(
    alloc: Global,
    file: &mut Vec<u8>,
    (at, bytes): (usize, &[u8]),
    pending: Pending,
) -> Result<(), AllocError> {
    match pending {
        Pending::Lost => Ok(()),
        Pending::Kept => put(alloc, file, at, bytes),
        Pending::Torn(part) => put(alloc, file, at, &bytes[..part_of(bytes.len(), part)]),
        Pending::Other(byte) => put(alloc, file, at, &filled(alloc, byte, bytes.len())?),
    }
}

fn cut(alloc: Global, file: &mut Vec<u8>, len: usize, pending: Pending) -> Result<(), AllocError> {
    let past = file.len().saturating_sub(len);
    match pending {
        Pending::Lost => {}
        Pending::Kept => file.truncate(len),
        Pending::Torn(part) => file.truncate(len.saturating_add(part_of(past, part))),
        Pending::Other(byte) => put(alloc, file, len, &filled(alloc, byte, past)?)?,
    }
    Ok(())
}

// Does to a file what is left of a call.
fn leave(
    alloc: Global,
    file: &mut Vec<u8>,
    call: &Call,
    pending: Pending,
) -> Result<(), AllocError> {
    match call {
        Call::Write { at, bytes } => write(alloc, file, (*at as usize, bytes), pending),
        Call::Cut { len } => cut(alloc, file, *len as usize, pending),
        _ => Ok(()),
    }
}

// What a stop behind these calls may leave of a file, on which nothing was pending before them.
fn image(
    alloc: Global,
    first: &[u8],
    calls: &[Made],
    pending: Pending,
) -> Result<Vec<u8>, AllocError> {
    let mut file = first.to_vec(alloc)?;
    let mut left = first.to_vec(alloc)?;
    for made in calls.iter() {
        leave(alloc, &mut left, &made.call, pending)?;
        if !made.failed {
            leave(alloc, &mut file, &made.call, Pending::Kept)?;
        }
        if made.call == Call::Sync && !made.failed {
            left = file.to_vec(alloc)?;
        }
    }
    Ok(left)
}

// What devices leave that held this first, and stop at the end of all their calls.
pub(super) fn left_now(
    alloc: Global,
    vault: &Vault<FuseDisk<MemDisk>>,
    first: &[Vec<u8>],
    pending: Pending,
) -> Result<Files, AllocError> {
    let mut files = Vec::new(alloc);
    for (device, file) in first.iter().enumerate() {
        let calls = calls_of(vault, device);
        files.push(image(alloc, file, calls, pending)?)?;
    }
    Ok(files)
}

// Bytes as they are shown to a person.
use std::alloc::{AllocError, Global};

// As many bytes of a line or a word are shown.
const MOST_SHOWN: usize = 200;

/// Bytes as text of one line, with a backslash before what isn't printable, and dots for what is left out.
pub(crate) fn shown(alloc: Global, bytes: &[u8]) -> Result<String, AllocError> {
    let count = bytes.len().min(MOST_SHOWN);
    let front = bytes[..count].escape_ascii();
    if bytes.len() > count {
        return format!(in alloc; "{front}..");
    }
    format!(in alloc; "{front}")
}

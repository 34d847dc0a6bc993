// Keys, contents and snapshot pages that the schedules share.
use drop_core::SnapPage;
use homes::{Content, Span};
use lists::Sequence;
use serial_model::{Key, Memory, Number};
use std::alloc::Global;

pub const X: Key = Key { storage: 1, key: 0 };

pub const Y: Key = Key { storage: 1, key: 1 };

/// Over X and Y.
pub const BOTH: Span = Span {
    storage: 1,
    low: 0,
    high: 1,
};

/// The last key of a storage.
pub const LAST: u64 = u64::MAX;

pub fn content(value: u64) -> Content {
    Content {
        number: Number { epoch: 1, draw: 1 },
        value: Some(value),
    }
}

/// A snapshot page over the span that has an entry of X and one of Y.
pub fn page_of_both(alloc: Global, span: Span) -> Result<SnapPage, Memory> {
    let entries = Sequence::from_slice(alloc, &[(X, content(10)), (Y, content(20))])?;
    Ok(SnapPage::Entries(span, entries))
}

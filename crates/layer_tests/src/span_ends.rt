// The ends of spans.
use super::checks::is_so;
use homes::Span;
use serial_model::Key;
use std::test::Fail;

const ALL: Span = Span {
    storage: 1,
    low: 0,
    high: u64::MAX,
};

const SOME: Span = Span {
    storage: 1,
    low: 5,
    high: 6,
};

/// A storage's key, and whether the second span has it.
const KEYS: [(u8, u64, bool); 5] = [
    (1, 4, false),
    (1, 5, true),
    (1, 6, true),
    (1, 7, false),
    (2, 5, false),
];

fn has(span: Span, storage: u8, key: u64) -> bool {
    span.has(Key { storage, key })
}

/// Both ends are in the span, also the greatest keys.
#[test]
fn ends_are_inside(_rt: HostRuntime) -> Result<(), Fail> {
    is_so("the ends", has(ALL, 1, 0) & has(ALL, 1, u64::MAX))?;
    for (storage, key, inside) in &KEYS {
        is_so("a key", has(SOME, *storage, *key) == *inside)?;
    }
    Ok(())
}

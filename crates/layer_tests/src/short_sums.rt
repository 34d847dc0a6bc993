// Sums and lines that were worked out by hand.
use super::checks::is_so;
use brief_output::{Tally, put_brief, total_of};
use outside::MemSink;
use serial_model::{Key, State};
use std::alloc::Global;
use std::test::Fail;
use text_output::Printer;

/// 2^64 - 1 twice, and 1.
const VALUES: [(u8, u64, u64); 3] = [(1, 7, u64::MAX), (2, 7, u64::MAX), (2, 8, 1)];

fn total(alloc: Global) -> Result<u128, Fail> {
    let mut state = State::new(alloc);
    for (storage, key, value) in &VALUES {
        let key = Key {
            storage: *storage,
            key: *key,
        };
        let _ = state.insert(key, *value).or(Err("memory"))?;
    }
    Ok(total_of(&state))
}

#[test]
fn adds_up_more_than_64_bits(rt: HostRuntime) -> Result<(), Fail> {
    is_so("the sum", total(rt.alloc())? == 36_893_488_147_419_103_231)
}

/// A run, its sum, and what is told of it.
const ROWS: [(Tally, Option<u128>, &str); 3] = [
    (
        RAN,
        Some(131_072),
        "commits 65536\ntotal 131072\ndurable 1\n",
    ),
    (
        RAN,
        Some(u128::MAX),
        "commits 65536\ntotal 340282366920938463463374607431768211455\ndurable 1\n",
    ),
    (RAN, None, "commits 65536\ndurable 1\n"),
];

const RAN: Tally = Tally {
    ran: true,
    commits: 65_536,
    durable: Some(1),
};

/// What is told of a run is put on a sink.
fn told(sink: &mut MemSink, tally: Tally, total: Option<u128>) -> bool {
    let mut printer = Printer::new(sink);
    let printed = put_brief(&mut printer, tally, total).and(printer.flush());
    let _ = printer.into_sink();
    printed.is_ok()
}

fn is_told(alloc: Global, tally: Tally, total: Option<u128>, text: &str) -> Result<(), Fail> {
    let mut sink = MemSink::new(alloc, Vec::new(alloc));
    is_so("printed", told(&mut sink, tally, total))?;
    is_so(text, sink.bytes() == text.as_bytes())
}

#[test]
fn tells_a_run_in_short(rt: HostRuntime) -> Result<(), Fail> {
    is_told(rt.alloc(), Tally::new(), Some(0), "commits 0\ntotal 0\n")?;
    for (tally, total, text) in &ROWS {
        is_told(rt.alloc(), *tally, *total, text)?;
    }
    Ok(())
}

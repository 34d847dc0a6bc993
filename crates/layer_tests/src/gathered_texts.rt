// Texts on their way, and what the sink's writes are.
use super::checks::is_so;
use outside::{Failed, MemSink, Sink};
use std::alloc::{AllocError, Global};
use std::test::Fail;
use text_output::Printer;

/// Prints a short text, a long one and a number.
fn print<K: Sink>(printer: &mut Printer<K>, long: &[u8]) -> Result<(), Failed> {
    printer.put(b"7:")?;
    printer.put(long)?;
    printer.put_number(u64::MAX)?;
    printer.flush()
}

/// The same on a sink, without what a printer promises.
fn prints(sink: &mut MemSink, long: &[u8]) -> bool {
    let mut printer = Printer::new(sink);
    let printed = print(&mut printer, long);
    let _ = printer.into_sink();
    printed.is_ok()
}

/// A sink of which the calls of these numbers fail.
fn sink_of(alloc: Global, fails: &[u64]) -> Result<MemSink, AllocError> {
    Ok(MemSink::new(alloc, fails.to_vec(alloc)?))
}

#[test]
fn gathers_short_texts(rt: HostRuntime) -> Result<(), Fail> {
    let mut sink = sink_of(rt.alloc(), &[])?;
    is_so("printed", prints(&mut sink, b" "))?;
    is_so(
        "the text",
        sink.bytes() == b"7: 18446744073709551615".as_slice(),
    )?;
    is_so("one call", sink.calls() == 1)
}

/// What waits is written before a text that is longer than the buffer, and what comes behind it by itself.
#[test]
fn writes_long_texts_whole(rt: HostRuntime) -> Result<(), Fail> {
    let long = vec![in rt.alloc(); b'x'; 20_000]?;
    let mut sink = sink_of(rt.alloc(), &[])?;
    is_so("printed", prints(&mut sink, &long))?;
    is_so(
        "three calls",
        (sink.bytes().len() == 20_022) & (sink.calls() == 3),
    )
}

/// The second write fails, which is told.
#[test]
fn tells_a_fault(rt: HostRuntime) -> Result<(), Fail> {
    let long = vec![in rt.alloc(); b'x'; 20_000]?;
    let mut sink = sink_of(rt.alloc(), &[1])?;
    let printed = prints(&mut sink, &long);
    is_so("a fault", !printed & sink.bytes().starts_with(b"7:x"))
}

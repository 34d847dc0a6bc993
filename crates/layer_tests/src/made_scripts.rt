// Scripts that were worked out by hand, and the sink's faults.
use super::checks::is_so;
use outside::MemSink;
use script_maker::make_script;
use std::alloc::{AllocError, Global};
use std::test::Fail;

/// A sink of which the calls of these numbers fail.
fn sink_of(alloc: Global, fails: &[u64]) -> Result<MemSink, AllocError> {
    Ok(MemSink::new(alloc, fails.to_vec(alloc)?))
}

/// With seed 1 the first four draws are 16838, 5758, 10113 and 17515.
const TEXT: &[u8] = b"array 1 1024\ntree 2\n0 a 1 454 1; a 2 126 1\n1 a 1 897 1; a 2 107 1\n";

#[test]
fn makes_the_lines_of_a_seed(rt: HostRuntime) -> Result<(), Fail> {
    let mut sink = sink_of(rt.alloc(), &[])?;
    let made = make_script(&mut sink, 1, 2, 2).is_ok();
    is_so("made", made)?;
    is_so("the script", sink.bytes() == TEXT)
}

/// A long script takes several writes, of which the second one fails.
#[test]
fn tells_a_fault(rt: HostRuntime) -> Result<(), Fail> {
    let mut sink = sink_of(rt.alloc(), &[1])?;
    let failed = make_script(&mut sink, 7, 8, 65_536).is_err();
    is_so("a fault", failed)?;
    let begin = b"array 1 1024\ntree 2\n0 a 1 ";
    is_so("its begin", sink.bytes().starts_with(begin))
}

// What tests compare, in few words of the prover.
use std::test::Fail;

/// It is so, or the test fails with what was looked at.
pub fn is_so(what: &str, so: bool) -> Result<(), Fail> {
    if so { Ok(()) } else { Err(Fail::from(what)) }
}

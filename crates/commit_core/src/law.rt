// What holds under every list of events.
ghost use Rattle.commit_core.specs.Law.{StaysSerial};

/// The theorem, about the very condition and effect that `Core::step` follows. Each act keeps the story and every seat
/// sound, one seat at a time, and leaves alone what other seats hold and have checked, and what is dead; the start is
/// sound. So from a sound state every list of events, of any number of seats, leads to a sound state, where what the
/// layer above tells of words other than a record's is true; what was drawn, checked, decided and marked before still
/// is, and neither epoch nor marks fall; a check that fails gives its attempt up, and an attempt that was given up
/// never counts; and the decided attempts, in order of number and as many as were decided, read serially.
pub fn commits_are_serial()
    ensures { StaysSerial }
{}

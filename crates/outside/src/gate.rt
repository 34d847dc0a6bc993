// What is called as a round begins and round each line that a script runs: a test holds a worker there, and a program
// tells how far it is.

/// Called round each line that is run. Workers count from 0, and worker 255 is the maintenance
/// thread; `line` counts the lines of that worker in its round, from 0.
pub trait Gate {
    fn before(&self, worker: u8, line: u32);

    fn after(&self, worker: u8, line: u32);

    /// This round of so many begins; both count from 1.
    fn begins(&self, _round: usize, _rounds: usize) {}
}

/// A gate that holds nobody.
#[derive(Clone, Copy, Debug, Default, PartialEq, Eq)]
pub struct OpenGate;

impl Gate for OpenGate {
    fn before(&self, _worker: u8, _line: u32) {}

    fn after(&self, _worker: u8, _line: u32) {}
}

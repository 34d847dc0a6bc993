//! Text on its way to a sink, gathered into whole writes.
//!
//! Promises: `put` and `put_number` add a text behind all that was added before, and `flush` leaves nothing that waits;
//! the sink holds a beginning of what was added and the buffer the rest, or the sink failed and holds a prefix (`Prints`).
//! Terms: *waiting*, added and not yet written.
//! What it means to print: `specs/Output.antt`; one text after another: `specs/Printed.antt`.
#![tactic(auto)]

mod printer;

pub use printer::Printer;

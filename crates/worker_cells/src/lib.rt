//! One worker's lines of a round, on words that threads share: what stands in a worker's cell while its thread runs.
//!
//! Promises: of each line that was run the outcome is that of its tries (`ComesOf`, by tx_runner's answers), one line
//! after another (`AreInARow`); the log took what the commits changed, in that order, and nothing else, and each mark
//! that it set is of the epoch before one that the pass saw, from the round's first one to the one that it saw last
//! (`RanOver`). As the lines begin the log's mark stands on the words (`show_first`), and from then on each new one is
//! set there, with the moment of the log file since when every image has what it counts (`shows`). Before each line the
//! clock is loaded anew (`looked`), and the mark is at least its epoch then, less 1 (`readied`), so no commit is of an
//! epoch before the round's first one (`since`); behind the last line the log's mark stands on the words still
//! (`last`). From the line on at which its log is refused a worker runs none (`RunsLines`): what is left out was
//! refused by a log that was up until then (`RefusesLine`), and a log is told full only where it refused a line.
//! Each number that a pass draws is drawn for a commit of its lines, or for a try that was refused behind its draw
//! (`row_draws`); where a try met another one, that was at a key of its line (`row_blamed`), and locks are taken of
//! keys alone that a line may write (`row_touched`). No call wants memory: outcomes go into room for all lines that is
//! lent with the cell. Nothing is said of other workers: what their commits have to do with these is told by the views
//! (`HasCommittedLine.later`), when all passes are ended.
//! Each line that is run stands between two calls of the gate, which name its worker and its place among that worker's
//! lines, and no other call is made for it (`calls_for`): calls are noted as they are made (`GateCalls`), in the order
//! of the lines, and what runs a line asks for the note of its begin.
//! Terms: *desk*, a worker's sets and room for what comes of a line, made once a run; *cell*, what one worker's thread
//! is lent: its pass, a desk, its log and its log file, and room for outcomes; *row*, lines that were run one after
//! another.
//! Layout: specs/Rows.antt, what comes of lines in a row; specs/InARow.antt, its laws; specs/Cells.antt, what lines
//! leave of a cell; specs/Gates.antt, what a gate is told; specs/GateLaws.antt, its laws.
//! Design: docs/COMMIT.md, docs/DURABILITY.md.
#![tactic(auto)]

mod cell;
mod gate_calls;
mod lines;
mod readying;

pub use cell::{Cell, Desk, LogEnd};
pub use gate_calls::{GateCalls, LineGate};
pub use lines::run_cell;
pub use readying::show_first;
pub use tx_runner::{advance, idle, load_epoch, marks};

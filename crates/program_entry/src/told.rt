// How a call ends that doesn't reach `top`.
ghost use Rattle.program_calls.specs.OnTheWay.{TellsEnding};

use outside::Sink;
use program_calls::{Ending, finish, status_told};
use text_output::Printer;

/// Prints how a call ends that doesn't reach `top`, and answers the status.
pub(crate) fn tell<K: Sink>(sink: &mut K, ending: Ending) -> u8
    ensures { TellsEnding ending (record { before = K.faults sink.old; after = K.faults sink.new })
        (K.held sink.old) (K.held sink.new) result }
{
    let mut printer = Printer::new(sink);
    let outcome = finish(&mut printer, ending);
    let _ = printer.into_sink();
    status_told(outcome)
}

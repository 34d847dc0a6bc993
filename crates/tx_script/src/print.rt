// The lines that a run prints.
ghost use Rattle.std.specs.Prelude.{◌≡◌, ◌++◌, [], codes, decimal, OnErr, OnOk};
ghost use Rattle.std.specs.Io.KnownBytes.{Appends};
ghost use Rattle.outside.specs.Faults.{HasCause};
ghost use Rattle.outside.specs.Stream.{TakesPrefix};
ghost use Rattle.serial_model.specs.Lent.{reply_lent};
ghost use Rattle.text_output.specs.Output.{Prints};
ghost use Rattle.tx_script.specs.Flat.{outcome_lent};
ghost use Rattle.tx_script.specs.Text.{answer_line, answer_text, answers_text, durable_text, lines_text};
ghost use Rattle.tx_script.specs.Text.{more_rows_text, number_text, outcome_line, outcome_text};
ghost use Rattle.tx_script.specs.Text.{pair_text, replies_text};
ghost use Rattle.tx_script.specs.Text.{reply_text, rows_text, verdict_text, worker_text, workers_text};

use crate::{Answer, Answers, LentOutcome, LentOutcomes, Outcome, Outcomes, RoundOutcomes};
use outside::{Failed, Sink};
use serial_model::{LentReplies, LentReply, LentRows, Number, Verdict};
use text_output::Printer;

/// Writes the line of a worker's outcome in one write, unless its replies are longer than any line's.
pub fn write_outcome<K: Sink>(
    sink: &mut K,
    worker: u8,
    line: u32,
    outcome: &Outcome,
) -> Result<(), Failed>
    ensures written { OnOk result (Appends (K.held sink.old) (K.held sink.new)
        (outcome_line worker line outcome.now)) }
    ensures prefix { OnErr result (TakesPrefix (K.held sink.old) (K.held sink.new)
        (outcome_line worker line outcome.now)) }
    ensures cause { HasCause (K.faults sink.old) (K.faults sink.new) result }
{
    let mut printer = Printer::new(sink);
    let result = print_outcome(&mut printer, worker, line, outcome);
    let _ = printer.into_sink();
    result
}

/// Writes the line of an answer to a keeper line in one write.
pub fn write_keeper<K: Sink>(sink: &mut K, line: u32, answer: &Answer) -> Result<(), Failed>
    ensures written { OnOk result (Appends (K.held sink.old) (K.held sink.new)
        (answer_line line answer.now)) }
    ensures prefix { OnErr result (TakesPrefix (K.held sink.old) (K.held sink.new)
        (answer_line line answer.now)) }
    ensures cause { HasCause (K.faults sink.old) (K.faults sink.new) result }
{
    let mut printer = Printer::new(sink);
    let result = print_answer(&mut printer, line, *answer);
    let _ = printer.into_sink();
    result
}

/// Adds the lines of a round: worker 0's first, then the keeper's, then the epoch that was made durable.
pub fn put_round<K: Sink>(
    printer: &mut Printer<'_, K>,
    outcomes: &RoundOutcomes,
    answers: &Answers,
    durable: Option<u32>,
) -> Result<(), Failed>
    ensures { Prints printer.old printer.new (lines_text outcomes.now answers.now durable) result }
{
    put_workers(printer, outcomes.as_slice())?;
    put_answers(printer, answers.as_slice())?;
    put_durable(printer, durable)
}

fn print_outcome<K: Sink>(
    printer: &mut Printer<'_, K>,
    worker: u8,
    line: u32,
    outcome: &Outcome,
) -> Result<(), Failed>
    ensures prints { Prints printer.old printer.new (outcome_line worker line outcome.now) result }
    ensures empty { OnOk result (printer.new.waiting ≡ []) }
{
    put_outcome_line(printer, worker as u64, line as u64, outcome.lent())?;
    printer.flush()
}

fn print_answer<K: Sink>(
    printer: &mut Printer<'_, K>,
    line: u32,
    answer: Answer,
) -> Result<(), Failed>
    ensures prints { Prints printer.old printer.new (answer_line line answer) result }
    ensures empty { OnOk result (printer.new.waiting ≡ []) }
{
    put_answer_line(printer, line as u64, answer)?;
    printer.flush()
}

fn put_workers<K: Sink>(printer: &mut Printer<'_, K>, workers: &[Outcomes]) -> Result<(), Failed>
    ensures { Prints printer.old printer.new (workers_text workers.now) result }
{
    for (worker, outcomes) in workers.iter().enumerate() {
        put_worker(printer, worker as u64, outcomes.lent())?;
    }
    Ok(())
}

fn put_worker<K: Sink>(
    printer: &mut Printer<'_, K>,
    worker: u64,
    outcomes: LentOutcomes<'_>,
) -> Result<(), Failed>
    ensures { Prints printer.old printer.new (worker_text worker outcomes.entry) result }
{
    let mut left = outcomes;
    for line in 0..left.len() {
        let Some((outcome, rest)) = left.split_first() else {
            unreachable!();
        };
        put_outcome_line(printer, worker, line as u64, outcome)?;
        left = rest;
    }
    Ok(())
}

fn put_outcome_line<K: Sink>(
    printer: &mut Printer<'_, K>,
    worker: u64,
    line: u64,
    outcome: LentOutcome<'_>,
) -> Result<(), Failed>
    ensures { Prints printer.old printer.new
        (outcome_line worker line (outcome_lent outcome.entry)) result }
{
    printer.put_number(worker)?;
    printer.put(b".")?;
    printer.put_number(line)?;
    printer.put(b" ")?;
    put_outcome(printer, outcome)?;
    printer.put(b"\n")
}

fn put_outcome<K: Sink>(
    printer: &mut Printer<'_, K>,
    outcome: LentOutcome<'_>,
) -> Result<(), Failed>
    ensures { Prints printer.old printer.new (outcome_text (outcome_lent outcome.entry)) result }
{
    match outcome {
        LentOutcome::Committed {
            verdict,
            number,
            replies,
        } => put_commit(printer, verdict, number, replies),
        LentOutcome::Conflict => printer.put(b"conflict"),
        LentOutcome::Full => printer.put(b"full"),
        LentOutcome::Wide => printer.put(b"wide"),
        LentOutcome::Limit => printer.put(b"limit"),
        LentOutcome::Unrun => printer.put(b"unrun"),
    }
}

fn put_commit<K: Sink>(
    printer: &mut Printer<'_, K>,
    verdict: Verdict,
    number: Number,
    replies: LentReplies<'_>,
) -> Result<(), Failed>
    ensures { Prints printer.old printer.new
        (verdict_text verdict ++ codes " " ++ number_text number ++ replies_text replies.entry) result }
{
    put_verdict(printer, verdict)?;
    printer.put(b" ")?;
    put_commit_number(printer, number)?;
    put_replies(printer, replies)
}

fn put_verdict<K: Sink>(printer: &mut Printer<'_, K>, verdict: Verdict) -> Result<(), Failed>
    ensures { Prints printer.old printer.new (verdict_text verdict) result }
{
    match verdict {
        Verdict::Done => printer.put(b"ok"),
        Verdict::Short => printer.put(b"short"),
        Verdict::Over => printer.put(b"over"),
    }
}

fn put_commit_number<K: Sink>(printer: &mut Printer<'_, K>, number: Number) -> Result<(), Failed>
    ensures { Prints printer.old printer.new (number_text number) result }
{
    printer.put_number(number.epoch as u64)?;
    printer.put(b":")?;
    printer.put_number(number.draw)
}

fn put_replies<K: Sink>(
    printer: &mut Printer<'_, K>,
    replies: LentReplies<'_>,
) -> Result<(), Failed>
    ensures { Prints printer.old printer.new (replies_text replies.entry) result }
{
    let mut left = replies;
    while let Some((reply, rest)) = left.split_first() {
        printer.put(b" ")?;
        put_reply(printer, reply)?;
        left = rest;
    }
    Ok(())
}

#[inline(always)]
fn put_reply<K: Sink>(printer: &mut Printer<'_, K>, reply: LentReply<'_>) -> Result<(), Failed>
    ensures { Prints printer.old printer.new (reply_text (reply_lent reply.entry)) result }
{
    match reply {
        LentReply::Value(value) => printer.put_number(value),
        LentReply::Absent => printer.put(b"-"),
        LentReply::Rows(rows) => put_rows(printer, rows),
    }
}

fn put_rows<K: Sink>(printer: &mut Printer<'_, K>, rows: LentRows<'_>) -> Result<(), Failed>
    ensures { Prints printer.old printer.new (rows_text rows.entry) result }
{
    let Some((first, others)) = rows.split_first() else {
        return printer.put(b".");
    };
    put_pair(printer, first)?;
    put_more_rows(printer, others)
}

// Each pair behind a comma.
fn put_more_rows<K: Sink>(printer: &mut Printer<'_, K>, rows: LentRows<'_>) -> Result<(), Failed>
    ensures { Prints printer.old printer.new (more_rows_text rows.entry) result }
{
    let mut left = rows;
    while let Some((pair, rest)) = left.split_first() {
        printer.put(b",")?;
        put_pair(printer, pair)?;
        left = rest;
    }
    Ok(())
}

fn put_pair<K: Sink>(printer: &mut Printer<'_, K>, pair: (u64, u64)) -> Result<(), Failed>
    ensures { Prints printer.old printer.new (pair_text pair) result }
{
    printer.put_number(pair.0)?;
    printer.put(b"=")?;
    printer.put_number(pair.1)
}

fn put_answers<K: Sink>(printer: &mut Printer<'_, K>, answers: &[Answer]) -> Result<(), Failed>
    ensures { Prints printer.old printer.new (answers_text answers.now) result }
{
    for (line, answer) in answers.iter().enumerate() {
        put_answer_line(printer, line as u64, *answer)?;
    }
    Ok(())
}

fn put_answer_line<K: Sink>(
    printer: &mut Printer<'_, K>,
    line: u64,
    answer: Answer,
) -> Result<(), Failed>
    ensures { Prints printer.old printer.new (answer_line line answer) result }
{
    put_word(printer, b"k.", line)?;
    printer.put(b" ")?;
    put_answer(printer, answer)?;
    printer.put(b"\n")
}

fn put_answer<K: Sink>(printer: &mut Printer<'_, K>, answer: Answer) -> Result<(), Failed>
    ensures { Prints printer.old printer.new (answer_text answer) result }
{
    match answer {
        Answer::Epoch { epoch } => put_word(printer, b"epoch ", epoch as u64),
        Answer::Save { epoch } => put_word(printer, b"save ", epoch as u64),
        Answer::Snap { epoch, new } => put_words(printer, b"snap ", epoch, b" new ", new),
        Answer::Empty => printer.put(b"none"),
        Answer::SnapFull => printer.put(b"snap-full"),
        Answer::Deep => printer.put(b"deep"),
        Answer::Drop { dropped, kept } => put_words(printer, b"drop ", dropped, b" kept ", kept),
        Answer::Limit => printer.put(b"limit"),
        Answer::Device => printer.put(b"device"),
        Answer::Damaged => printer.put(b"damaged"),
        Answer::Memory => printer.put(b"memory"),
        Answer::Unrun => printer.put(b"unrun"),
    }
}

fn put_durable<K: Sink>(printer: &mut Printer<'_, K>, durable: Option<u32>) -> Result<(), Failed>
    ensures { Prints printer.old printer.new (durable_text durable) result }
{
    let Some(epoch) = durable else {
        return Ok(());
    };
    put_word(printer, b"durable ", epoch as u64)?;
    printer.put(b"\n")
}

// A word and a number.
fn put_word<K: Sink>(printer: &mut Printer<'_, K>, word: &[u8], number: u64) -> Result<(), Failed>
    ensures { Prints printer.old printer.new (word.now ++ decimal number) result }
{
    printer.put(word)?;
    printer.put_number(number)
}

// A word and a number, and others behind them.
fn put_words<K: Sink>(
    printer: &mut Printer<'_, K>,
    word: &[u8],
    number: u32,
    other: &[u8],
    more: u32,
) -> Result<(), Failed>
    ensures { Prints printer.old printer.new
        (word.now ++ decimal number ++ other.now ++ decimal more) result }
{
    put_word(printer, word, number as u64)?;
    put_word(printer, other, more as u64)
}

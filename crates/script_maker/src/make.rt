// The generator, and the lines that it prints.
ghost use Rattle.std.specs.Prelude.{◌≡◌, ◌<◌, ◌%◌, ◌^◌, [], OnErr, OnOk, flat_map};
ghost use Rattle.std.specs.Io.KnownBytes.{Appends};
ghost use Rattle.std.specs.List.{range_with_len};
ghost use Rattle.outside.specs.Faults.{HasCause};
ghost use Rattle.outside.specs.Stream.{TakesPrefix};
ghost use Rattle.text_output.specs.Output.{Prints};
ghost use Rattle.script_maker.specs.Generator.{drawn, line_text, made_line, next_state, script_text};

use outside::{Failed, Sink};
use text_output::Printer;

/// Writes a script of two declarations and so many lines, which the seed determines. Line i is worker i's, where
/// workers are counted round, and adds 1 to a key of an array of 1,024 values and to one of a tree of at most 512 keys.
pub fn make_script<K: Sink>(sink: &mut K, seed: u32, workers: u8, lines: u32) -> Result<(), Failed>
    requires some_worker { 0 < workers }
    ensures written { OnOk result (Appends (K.held sink.old) (K.held sink.new)
        (script_text seed workers lines)) }
    ensures prefix { OnErr result (TakesPrefix (K.held sink.old) (K.held sink.new)
        (script_text seed workers lines)) }
    ensures cause { HasCause (K.faults sink.old) (K.faults sink.new) result }
{
    let mut printer = Printer::new(sink);
    let result = print_script(&mut printer, seed, workers, lines);
    let _ = printer.into_sink();
    result
}

/// Adds the same script.
pub fn put_script<K: Sink>(
    printer: &mut Printer<'_, K>,
    seed: u32,
    workers: u8,
    lines: u32,
) -> Result<(), Failed>
    requires some_worker { 0 < workers }
    ensures { Prints printer.old printer.new (script_text seed workers lines) result }
{
    printer.put(b"array 1 1024\ntree 2\n")?;
    put_lines(printer, seed, workers, lines)
}

fn print_script<K: Sink>(
    printer: &mut Printer<'_, K>,
    seed: u32,
    workers: u8,
    lines: u32,
) -> Result<(), Failed>
    requires some_worker { 0 < workers }
    ensures prints { Prints printer.old printer.new (script_text seed workers lines) result }
    ensures empty { OnOk result (printer.new.waiting ≡ []) }
{
    put_script(printer, seed, workers, lines)?;
    printer.flush()
}

fn put_lines<K: Sink>(
    printer: &mut Printer<'_, K>,
    seed: u32,
    workers: u8,
    lines: u32,
) -> Result<(), Failed>
    requires some_worker { 0 < workers }
    ensures { Prints printer.old printer.new
        (flat_map (made_line seed workers) (range_with_len 0 lines)) result }
{
    let mut state = seed;
    for line in 0..lines {
        let first = next_state(state);
        state = next_state(first);
        let worker = line % workers as u32;
        put_line(printer, worker, drawn(first) % 1024, drawn(state) % 512)?;
    }
    Ok(())
}

fn put_line<K: Sink>(
    printer: &mut Printer<'_, K>,
    worker: u32,
    array_key: u32,
    tree_key: u32,
) -> Result<(), Failed>
    ensures { Prints printer.old printer.new (line_text worker array_key tree_key) result }
{
    printer.put_number(worker as u64)?;
    printer.put(b" a 1 ")?;
    printer.put_number(array_key as u64)?;
    printer.put(b" 1; a 2 ")?;
    printer.put_number(tree_key as u64)?;
    printer.put(b" 1\n")
}

/// The state behind this one.
fn next_state(state: u32) -> u32
    ensures { result ≡ next_state state }
{
    ((1_103_515_245 * state as u64 + 12_345) % (1 << 31)) as u32
}

/// What a draw that ended in this state gives.
fn drawn(state: u32) -> u32
    ensures { result ≡ drawn state }
{
    state / 65_536
}

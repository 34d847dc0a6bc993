// The text of a state.
ghost use Rattle.std.specs.Prelude.{◌≡◌, [], ◌∷◌, OnErr, OnOk};
ghost use Rattle.std.specs.FinMap.{entries};
ghost use Rattle.std.specs.Io.KnownBytes.{Appends};
ghost use Rattle.outside.specs.Faults.{HasCause};
ghost use Rattle.outside.specs.Stream.{TakesPrefix};
ghost use Rattle.serial_model.specs.Keys.{is_tree};
ghost use Rattle.text_output.specs.Output.{Prints};
ghost use Rattle.tx_script.specs.StateText.{epoch_line, key_line, key_lines, stands, state_text};

use outside::{Failed, Sink};
use serial_model::{Decl, Key, State};
use text_output::Printer;

/// Writes a state as text: the epoch that was saved, and a line for each key of a tree that is present and for each
/// key of an array whose value isn't 0, ascending by storage and key.
pub fn write_state<K: Sink>(
    sink: &mut K,
    epoch: u32,
    state: &State,
    decls: &[Decl],
) -> Result<(), Failed>
    ensures written { OnOk result (Appends (K.held sink.old) (K.held sink.new)
        (state_text epoch decls.now state.now)) }
    ensures prefix { OnErr result (TakesPrefix (K.held sink.old) (K.held sink.new)
        (state_text epoch decls.now state.now)) }
    ensures cause { HasCause (K.faults sink.old) (K.faults sink.new) result }
{
    let mut printer = Printer::new(sink);
    let result = print_state(&mut printer, epoch, state, decls);
    let _ = printer.into_sink();
    result
}

/// Adds the text of a state.
pub fn put_state<K: Sink>(
    printer: &mut Printer<'_, K>,
    epoch: u32,
    state: &State,
    decls: &[Decl],
) -> Result<(), Failed>
    ensures { Prints printer.old printer.new (state_text epoch decls.now state.now) result }
{
    put_epoch(printer, epoch)?;
    put_keys(printer, state, decls)
}

fn print_state<K: Sink>(
    printer: &mut Printer<'_, K>,
    epoch: u32,
    state: &State,
    decls: &[Decl],
) -> Result<(), Failed>
    ensures prints { Prints printer.old printer.new (state_text epoch decls.now state.now) result }
    ensures empty { OnOk result (printer.new.waiting ≡ []) }
{
    put_state(printer, epoch, state, decls)?;
    printer.flush()
}

fn put_epoch<K: Sink>(printer: &mut Printer<'_, K>, epoch: u32) -> Result<(), Failed>
    ensures { Prints printer.old printer.new (epoch_line epoch) result }
{
    printer.put(b"epoch ")?;
    printer.put_number(epoch as u64)?;
    printer.put(b"\n")
}

fn put_keys<K: Sink>(
    printer: &mut Printer<'_, K>,
    state: &State,
    decls: &[Decl],
) -> Result<(), Failed>
    ensures { Prints printer.old printer.new (key_lines decls.now (entries state.now)) result }
{
    for (key, value) in state.iter() {
        put_if_it_stands(printer, decls, *key, *value)?;
    }
    Ok(())
}

fn put_if_it_stands<K: Sink>(
    printer: &mut Printer<'_, K>,
    decls: &[Decl],
    key: Key,
    value: u64,
) -> Result<(), Failed>
    ensures { Prints printer.old printer.new (key_lines decls.now ((key, value) ∷ [])) result }
{
    if stands(decls, key, value) {
        return put_key(printer, key, value);
    }
    Ok(())
}

fn put_key<K: Sink>(printer: &mut Printer<'_, K>, key: Key, value: u64) -> Result<(), Failed>
    ensures { Prints printer.old printer.new (key_line (key, value)) result }
{
    printer.put_number(key.storage as u64)?;
    printer.put(b" ")?;
    printer.put_number(key.key)?;
    printer.put(b" ")?;
    printer.put_number(value)?;
    printer.put(b"\n")
}

fn stands(decls: &[Decl], key: Key, value: u64) -> bool
    ensures { result ≡ stands decls.now (key, value) }
{
    value > 0 || has_tree(decls, key.storage)
}

fn has_tree(decls: &[Decl], storage: u8) -> bool
    ensures { result ≡ is_tree decls.now storage }
{
    decls.iter().any(|decl| match *decl {
        Decl::Array { .. } => false,
        Decl::Tree { id } => id == storage,
    })
}

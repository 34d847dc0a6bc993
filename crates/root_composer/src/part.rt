// The entries of one storage.
ghost use Rattle.std.specs.Prelude.{◌≡◌, ◌<◌, ◌^◌, [], ◌∷◌, ◌++◌, OnOk, IfOk};
ghost use Rattle.std.specs.List.{AllByRecursion};
ghost use Rattle.serial_model.specs.Numbers.{IsNumber};
ghost use Rattle.wire_form.specs.Words.{number_word};
ghost use Rattle.root_composer.specs.declared.last.Last.{Last};
ghost use Rattle.root_composer.specs.Storages.{part_of};

use crate::Last;
use lists::Memory;
use serial_model::Number;
use std::alloc::Global;
use wire_form::{Entry, number_word};

// The last change of a key of one storage.
fn last_of(key: u64, number: Number, value: Option<u64>) -> Last
    requires { IsNumber number }
    ensures is { let last : Last = record { key = key; number = number_word number; value = value }
        in result ≡ last }
    ensures key { result.key < 2 ^ 64 }
{
    Last {
        key,
        number: number_word(number),
        value,
    }
}

// Adds an entry, where it is of the storage.
fn push_entry(part: &mut Vec<Last>, id: u8, entry: &Entry) -> Result<(), Memory>
    requires number { IsNumber entry.now.number }
    requires keys { AllByRecursion (λ e. e.key < 2 ^ 64) part.old.items }
    ensures part { OnOk result (part.new.items ≡ part.old.items ++ part_of id (entry.now ∷ [])) }
    ensures keys { OnOk result (AllByRecursion (λ e. e.key < 2 ^ 64) part.new.items) }
{
    if entry.key.storage == id {
        part.push(last_of(entry.key.key, entry.number, entry.value))?;
    }
    Ok(())
}

/// The entries of one storage, in their order.
pub fn entries_of(alloc: Global, run: &[Entry], id: u8) -> Result<Vec<Last>, Memory>
    requires { AllByRecursion (λ e. IsNumber e.number) run.now }
    ensures part { IfOk result (λ part. part.items ≡ part_of id run.now) }
    ensures keys { IfOk result (λ part. AllByRecursion (λ e. e.key < 2 ^ 64) part.items) }
{
    let mut part = Vec::new(alloc);
    for entry in run {
        push_entry(&mut part, id, entry)?;
    }
    Ok(part)
}

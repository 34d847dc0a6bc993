// The storages that a script declares, beside those that the vault keeps.
ghost use Rattle.std.specs.Prelude.{◌≡◌, ◌↔◌, ◌<◌, IsTrue, IfErr, IfOk, IfSome, OnOk, drop, length};
ghost use Rattle.std.specs.List.{Contains};
ghost use Rattle.std.specs.List.Sorted.{IsNonDecreasingBy, IsPermutation};
ghost use Rattle.serial_model.specs.Keys.{id_of};
ghost use Rattle.text_output.specs.Output.{Prints};
ghost use Rattle.program_calls.specs.Beginning.{SameDecls};
ghost use Rattle.program_calls.specs.Ending.{decl_text, decls_text, more_decls_text, shape_text};
ghost use Rattle.program_calls.specs.OnTheWay.{AreOther, IsOtherShape};

use crate::ending::Ending;
use lists::{Memory, Sequence};
use outside::{Failed, Sink};
use recovery_core::Recovered;
use serial_model::{Decl, id_of};
use std::alloc::Global;
use text_output::Printer;

/// That a vault which was recovered so is fresh or has these storages; or how a call ends that declares them.
pub(crate) fn check_shape(
    alloc: Global,
    decls: &[Decl],
    recovered: &Recovered,
) -> Result<(), Ending>
    ensures same { OnOk result (IfSome recovered.now.saved (λ _. SameDecls decls.now recovered.now.decls)) }
    ensures other { IfErr result (IsOtherShape decls.now recovered.now) }
{
    match recovered.saved {
        None => Ok(()),
        Some(_) => check_same(alloc, decls, recovered.decls.as_slice()),
    }
}

// That these are the same storages; or how a call ends that declares the first over a vault that keeps the others.
fn check_same(alloc: Global, decls: &[Decl], others: &[Decl]) -> Result<(), Ending>
    ensures same { OnOk result (SameDecls decls.now others.now) }
    ensures other { IfErr result (AreOther decls.now others.now) }
{
    if are_same(decls, others) {
        return Ok(());
    }
    let declared = in_order(alloc, decls)?;
    let kept = Sequence::from_slice(alloc, others)?;
    Err(Ending::Shape { declared, kept })
}

/// Whether these are the same storages, in any order.
pub(crate) fn are_same(decls: &[Decl], others: &[Decl]) -> bool
    ensures { IsTrue result ↔ SameDecls decls.now others.now }
{
    if !has_all(others, decls) {
        return false;
    }
    has_all(decls, others)
}

// Whether all of the wanted storages are among the others.
fn has_all(decls: &[Decl], wanted: &[Decl]) -> bool
    ensures { IsTrue result ↔ ((decl : Decl) → Contains wanted.now decl → Contains decls.now decl) }
{
    for index in 0..wanted.len() {
        if !has(decls, wanted[index]) {
            return false;
        }
    }
    true
}

fn has(decls: &[Decl], wanted: Decl) -> bool
    ensures { IsTrue result ↔ Contains decls.now wanted }
{
    decls.contains(&wanted)
}

// The storages in order of their ids.
fn in_order(alloc: Global, decls: &[Decl]) -> Result<Sequence<Decl>, Memory>
    ensures same { IfOk result (λ sorted. IsPermutation decls.now sorted) }
    ensures rising { IfOk result (λ sorted. IsNonDecreasingBy id_of sorted) }
{
    let mut sorted = Vec::from_slice(alloc, decls)?;
    sorted.sort_by_key(|decl| id_of(decl))?;
    Ok(Sequence::from_vec(sorted))
}

/// Adds the line that tells of both.
pub(crate) fn put_shape<K: Sink>(
    printer: &mut Printer<'_, K>,
    declared: &[Decl],
    kept: &[Decl],
) -> Result<(), Failed>
    ensures { Prints printer.old printer.new (shape_text declared.now kept.now) result }
{
    printer.put(b"shape declared ")?;
    put_decls(printer, declared)?;
    printer.put(b" kept ")?;
    put_decls(printer, kept)?;
    printer.put(b"\n")
}

fn put_decls<K: Sink>(printer: &mut Printer<'_, K>, decls: &[Decl]) -> Result<(), Failed>
    ensures { Prints printer.old printer.new (decls_text decls.now) result }
{
    if decls.is_empty() {
        return printer.put(b".");
    }
    put_some_decls(printer, decls)
}

fn put_some_decls<K: Sink>(printer: &mut Printer<'_, K>, decls: &[Decl]) -> Result<(), Failed>
    requires { 0 < length decls.now }
    ensures { Prints printer.old printer.new (decls_text decls.now) result }
{
    put_decl(printer, decls[0])?;
    put_more_decls(printer, decls)
}

// Adds all but the first, each behind a comma.
fn put_more_decls<K: Sink>(printer: &mut Printer<'_, K>, decls: &[Decl]) -> Result<(), Failed>
    requires { 0 < length decls.now }
    ensures { Prints printer.old printer.new (more_decls_text (drop 1 decls.now)) result }
{
    for index in 1..decls.len() {
        printer.put(b",")?;
        put_decl(printer, decls[index])?;
    }
    Ok(())
}

fn put_decl<K: Sink>(printer: &mut Printer<'_, K>, decl: Decl) -> Result<(), Failed>
    ensures { Prints printer.old printer.new (decl_text decl) result }
{
    match decl {
        Decl::Array { id, size } => put_array(printer, id, size),
        Decl::Tree { id } => {
            printer.put_number(id as u64)?;
            printer.put(b":t")
        }
    }
}

fn put_array<K: Sink>(printer: &mut Printer<'_, K>, id: u8, size: u32) -> Result<(), Failed>
    ensures { Prints printer.old printer.new (decl_text (Decl.Array id size)) result }
{
    printer.put_number(id as u64)?;
    printer.put(b":")?;
    printer.put_number(size as u64)
}

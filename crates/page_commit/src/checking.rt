// The checks of an attempt.
ghost use Rattle.std.specs.Prelude.{◌≡◌, ◌+◌, ◌≤◌, ◌<◌, ◌^◌, ◌&&◌, ◌==◌, length, Contains, OnOk, OnErr, IfErr, true, false};
ghost use Rattle.lists.specs.Each.{AreDistinct};
ghost use Rattle.tx_sets.specs.Entries.{places_of, writes_at};
ghost use Rattle.engine_pages.specs.declared.view.View.{View as TheView};
ghost use Rattle.engine_pages.specs.Passes.{view, IsPassOf};
ghost use Rattle.engine_pages.specs.Views.{IsActive};
ghost use Rattle.page_records.specs.Attempts.{is_as_seen};
ghost use Rattle.page_commit.specs.Committing.{checks_of};
ghost use Rattle.page_commit.specs.Live.{entry_places};
ghost use Rattle.page_commit.specs.Steps.{HasTried, HasChecked, HasCheckedSome, HasFailed, CheckConflict};

use crate::locking::Conflict;
use crate::places::slot_of;
use engine_pages::{Engine, Pass};
use page_records::{LOCK, check_as};
use pointer_checks::check_pointer;
use std::marker::Brand;
use tree_heads::check_header;
use tx_sets::{ReadEntry, Seen, Sets};

/// Checks what was read: first the records, then the pointers, then the headers, up to the first that is not as it
/// was.
pub(crate) fn check_all(engine: &Engine, pass: &mut Pass, sets: &Sets) -> Result<(), Conflict>
    requires of { IsPassOf engine.now pass.old }
    requires pass { IsActive (view pass.old).role }
    requires once { AreDistinct (entry_places sets.now.reads) }
    requires tried { HasTried sets.now (view pass.old) }
    ensures of { IsPassOf engine.now pass.new }
    ensures checked { OnOk result (HasChecked (view pass.old) (view pass.new)) }
    ensures steps { OnOk result ((view pass.new).steps
        ≡ (view pass.old).steps + checks_of sets.now) }
    ensures most { OnErr result ((view pass.new).steps
        ≤ (view pass.old).steps + checks_of sets.now) }
    ensures failed { OnErr result (HasFailed (view pass.old) (view pass.new)) }
    ensures apart { IfErr result (λ e. writes_at e.word sets.now.writes ≡ false) }
    ensures conflict { IfErr result (λ e.
        CheckConflict sets.now e.word e.expected e.seen (view pass.old) (view pass.new)) }
{
    let reads = sets.reads.as_slice();
    match check_records(engine, pass, sets, reads) {
        Ok(()) => check_rest(engine, pass, sets),
        Err(conflict) => Err(conflict),
    }
}

// Checks the pointers that were met and then the headers, behind the records.
fn check_rest(engine: &Engine, pass: &mut Pass, sets: &Sets) -> Result<(), Conflict>
    requires of { IsPassOf engine.now pass.old }
    requires pass { IsActive (view pass.old).role }
    requires so { (v : TheView) × HasTried sets.now v
        × HasCheckedSome sets.now (length sets.now.reads) 0 v (view pass.old) }
    ensures of { IsPassOf engine.now pass.new }
    ensures checked { OnOk result ((v : TheView) → HasTried sets.now v
        → HasCheckedSome sets.now (length sets.now.reads) 0 v (view pass.old) → HasChecked v (view pass.new)) }
    ensures steps { OnOk result ((view pass.new).steps
        ≡ (view pass.old).steps + (length sets.now.pointers + length sets.now.headers)) }
    ensures most { OnErr result ((view pass.new).steps
        ≤ (view pass.old).steps + (length sets.now.pointers + length sets.now.headers)) }
    ensures failed { OnErr result ((v : TheView) → HasTried sets.now v
        → HasCheckedSome sets.now (length sets.now.reads) 0 v (view pass.old) → HasFailed v (view pass.new)) }
    ensures apart { IfErr result (λ e. writes_at e.word sets.now.writes ≡ false) }
    ensures conflict { IfErr result (λ e. (v : TheView) → HasTried sets.now v
        → HasCheckedSome sets.now (length sets.now.reads) 0 v (view pass.old)
        → CheckConflict sets.now e.word e.expected e.seen v (view pass.new)) }
{
    let pointers = sets.pointers.as_slice();
    let headers = sets.headers.as_slice();
    match check_pointers(engine, pass, sets, pointers) {
        Ok(()) => check_headers(engine, pass, sets, headers),
        Err(conflict) => Err(conflict),
    }
}

// Checks in order the records that were read, up to the first that is not as it was read.
fn check_records(
    engine: &Engine,
    pass: &mut Pass,
    sets: &Sets,
    reads: &[ReadEntry],
) -> Result<(), Conflict>
    requires of { IsPassOf engine.now pass.old }
    requires pass { IsActive (view pass.old).role }
    requires reads { reads.now ≡ sets.now.reads }
    requires once { AreDistinct (entry_places sets.now.reads) }
    requires tried { HasTried sets.now (view pass.old) }
    ensures of { IsPassOf engine.now pass.new }
    ensures checked { OnOk result
        (HasCheckedSome sets.now (length sets.now.reads) 0 (view pass.old) (view pass.new)) }
    ensures steps { OnOk result ((view pass.new).steps ≡ (view pass.old).steps + length sets.now.reads) }
    ensures most { OnErr result ((view pass.new).steps ≤ (view pass.old).steps + length sets.now.reads) }
    ensures failed { OnErr result (HasFailed (view pass.old) (view pass.new)) }
    ensures apart { IfErr result (λ e. writes_at e.word sets.now.writes ≡ false) }
    ensures conflict { IfErr result (λ e.
        CheckConflict sets.now e.word e.expected e.seen (view pass.old) (view pass.new)) }
{
    let mut done = 0;
    while done < reads.len() {
        let entry = reads[done];
        let own = sets.writes.contains_record(entry.at);
        let seen = check_as::<Brand, ()>(engine, pass, entry.key, (), entry.at, entry.word, own);
        if !is_as_read(entry.word, own, seen) {
            return Err(Conflict {
                word: entry.at,
                expected: entry.word,
                seen,
            });
        }
        done += 1;
    }
    Ok(())
}

// Whether a record's word is the one that was read, maybe with an own lock.
fn is_as_read(word: u64, own: bool, seen: u64) -> bool
    requires { word < 2 ^ 62 }
    ensures { result ≡ is_as_seen word own seen }
{
    if seen == word {
        return true;
    }
    own && seen == word + LOCK
}

// Checks in order the pointers that were met, behind the records, up to the first that is not as it was met.
fn check_pointers(
    engine: &Engine,
    pass: &mut Pass,
    sets: &Sets,
    pointers: &[Seen],
) -> Result<(), Conflict>
    requires of { IsPassOf engine.now pass.old }
    requires pass { IsActive (view pass.old).role }
    requires pointers { pointers.now ≡ sets.now.pointers }
    requires once { AreDistinct (places_of sets.now.pointers) }
    requires so { (v : TheView) × HasTried sets.now v
        × HasCheckedSome sets.now (length sets.now.reads) 0 v (view pass.old) }
    ensures of { IsPassOf engine.now pass.new }
    ensures checked { OnOk result ((v : TheView) → HasTried sets.now v
        → HasCheckedSome sets.now (length sets.now.reads) 0 v (view pass.old)
        → HasCheckedSome sets.now (length sets.now.reads) (length sets.now.pointers) v (view pass.new)) }
    ensures steps { OnOk result ((view pass.new).steps ≡ (view pass.old).steps + length sets.now.pointers) }
    ensures most { OnErr result ((view pass.new).steps ≤ (view pass.old).steps + length sets.now.pointers) }
    ensures failed { OnErr result ((v : TheView) → HasTried sets.now v
        → HasCheckedSome sets.now (length sets.now.reads) 0 v (view pass.old) → HasFailed v (view pass.new)) }
    ensures apart { IfErr result (λ e. writes_at e.word sets.now.writes ≡ false) }
    ensures conflict { IfErr result (λ e. (v : TheView) → HasTried sets.now v
        → HasCheckedSome sets.now (length sets.now.reads) 0 v (view pass.old)
        → CheckConflict sets.now e.word e.expected e.seen v (view pass.new)) }
{
    let mut done = 0;
    while done < pointers.len() {
        let pointer = pointers[done];
        let seen = check_pointer::<Brand>(engine, pass, pointer.at, pointer.word);
        if seen != pointer.word {
            return Err(Conflict {
                word: pointer.at,
                expected: pointer.word,
                seen,
            });
        }
        done += 1;
    }
    Ok(())
}

// Checks in order the headers that were kept, behind the records and the pointers, up to the first that is not as it
// was seen.
fn check_headers(
    engine: &Engine,
    pass: &mut Pass,
    sets: &Sets,
    headers: &[Seen],
) -> Result<(), Conflict>
    requires of { IsPassOf engine.now pass.old }
    requires pass { IsActive (view pass.old).role }
    requires headers { headers.now ≡ sets.now.headers }
    requires so { (v : TheView) × HasTried sets.now v
        × HasCheckedSome sets.now (length sets.now.reads) (length sets.now.pointers) v (view pass.old) }
    ensures of { IsPassOf engine.now pass.new }
    ensures checked { OnOk result ((v : TheView) → HasTried sets.now v
        → HasCheckedSome sets.now (length sets.now.reads) (length sets.now.pointers) v (view pass.old)
        → HasChecked v (view pass.new)) }
    ensures steps { OnOk result ((view pass.new).steps ≡ (view pass.old).steps + length sets.now.headers) }
    ensures most { OnErr result ((view pass.new).steps ≤ (view pass.old).steps + length sets.now.headers) }
    ensures failed { OnErr result ((v : TheView) → HasTried sets.now v
        → HasCheckedSome sets.now (length sets.now.reads) (length sets.now.pointers) v (view pass.old)
        → HasFailed v (view pass.new)) }
    ensures apart { IfErr result (λ e. writes_at e.word sets.now.writes ≡ false) }
    ensures conflict { IfErr result (λ e. (v : TheView) → HasTried sets.now v
        → HasCheckedSome sets.now (length sets.now.reads) (length sets.now.pointers) v (view pass.old)
        → CheckConflict sets.now e.word e.expected e.seen v (view pass.new)) }
{
    let mut done = 0;
    while done < headers.len() {
        let header = headers[done];
        let slot = slot_of(engine, header.at);
        let seen = check_header(engine, pass, slot, header.at, header.word);
        if seen != header.word {
            return Err(Conflict {
                word: header.at,
                expected: header.word,
                seen,
            });
        }
        done += 1;
    }
    Ok(())
}

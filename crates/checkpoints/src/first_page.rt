// The page of a fresh vault's first catalogue.
ghost use Rattle.std.specs.Prelude.{◌≡◌, ◌<◌, ◌≤◌, length, map, IfOk};
ghost use Rattle.std.specs.List.{AllByRecursion};
ghost use Rattle.std.specs.List.Sorted.{IsPermutation};
ghost use Rattle.lists.specs.Each.{AreDistinct};
ghost use Rattle.serial_model.specs.Decls.{IsDecl};
ghost use Rattle.serial_model.specs.Keys.{id_of};
ghost use Rattle.wire_form.specs.Items.{Rises};
ghost use Rattle.checkpoints.specs.FreshLaws.{IsFirstPage};
ghost use Rattle.checkpoints.specs.SettlePages.{first_contents};

use crate::settlement::words_fit;
use lists::Memory;
use serial_model::{Decl, id_of};
use std::alloc::Global;
use wire_form::{Page, PageKind, Stored, catalogue_words};

/// Page 1 of a database with these storages, which have no page yet.
pub(crate) fn first_page(alloc: Global, decls: &[Decl]) -> Result<Page, Memory>
    requires few { length decls.now ≤ 16 }
    requires decls { AllByRecursion IsDecl decls.now }
    requires rising { Rises ◌<◌ (map id_of decls.now) }
    ensures number { IfOk result (λ page. page.number ≡ 1) }
    ensures first { IfOk result (λ page. IsFirstPage page.words (first_contents decls.now)) }
{
    let mut storages = Vec::with_capacity(alloc, decls.len())?;
    for decl in decls {
        storages.push(Stored {
            decl: *decl,
            root: 0,
        })?;
    }
    let words = catalogue_words(0, 0, &storages);
    words_fit(&words);
    Ok(Page {
        number: 1,
        kind: PageKind::Catalogue,
        words,
    })
}

/// The declarations in order of their ids, as a catalogue has them.
pub(crate) fn in_order(alloc: Global, decls: &[Decl]) -> Result<Vec<Decl>, Memory>
    requires { AreDistinct (map id_of decls.now) }
    ensures rising { IfOk result (λ sorted. Rises ◌<◌ (map id_of sorted.items)) }
    ensures same { IfOk result (λ sorted. IsPermutation decls.now sorted.items) }
{
    let mut sorted = Vec::from_slice(alloc, decls)?;
    sorted.sort_by_key(|decl| id_of(decl))?;
    Ok(sorted)
}

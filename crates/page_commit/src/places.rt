// Where the words of records stand, and in which slots.
ghost use Rattle.std.specs.Prelude.{◌≡◌, ◌-◌, ◌+◌, slice_get};
ghost use Rattle.page_commit.specs.Live.{read_word};
ghost use Rattle.engine_pages.specs.Pages.{decl_of, is_array as is_of_array};
ghost use Rattle.page_commit.specs.Places.{slot_of as slot_at, spot_at};

use engine_pages::Engine;
use homes::Spot;
use serial_model::Decl;
use tx_sets::ReadEntry;

/// The place of the record whose word stands here.
pub(crate) fn spot_of(engine: &Engine, at: u32) -> Spot
    ensures { result ≡ spot_at engine.now.table.shared.key.slots at }
{
    let offset = offset_of(engine.slots(), at);
    Spot {
        slot: offset / 64,
        index: (offset % 64 / 2) as usize,
    }
}

/// Whether the storage is an array.
#[inline(always)]
pub fn is_array(engine: &Engine, storage: u8) -> bool
    ensures { result ≡ is_of_array engine.now.table.shared.key.decls storage }
{
    matches!(decl_for(engine, storage), Some(Decl::Array { .. }))
}

// The storage with this id, as it was declared.
#[inline(always)]
fn decl_for(engine: &Engine, storage: u8) -> Option<Decl>
    ensures { result ≡ decl_of engine.now.table.shared.key.decls storage }
{
    decl_at(engine.decls(), engine.index_of(storage))
}

// The declaration with this index, if there is one.
#[inline(always)]
fn decl_at(decls: &[Decl], index: usize) -> Option<Decl>
    ensures { result ≡ slice_get decls.now index }
{
    if index < decls.len() {
        return Some(decls[index]);
    }
    None
}

/// The slot in whose page the word with this place stands.
pub(crate) fn slot_of(engine: &Engine, at: u32) -> u32
    ensures { result ≡ slot_at engine.now.table.shared.key.slots at }
{
    offset_of(engine.slots(), at) / 64
}

// How many words of pages stand before this one.
fn offset_of(slots: u32, at: u32) -> u32
    ensures { result ≡ at - (32 + slots) }
{
    at.saturating_sub(32).saturating_sub(slots)
}

/// The word that the record had as it was read whose word stands here.
pub(crate) fn word_read(reads: &[ReadEntry], at: u32) -> Option<u64>
    ensures { result ≡ read_word at reads.now }
{
    reads
        .iter()
        .find(|entry| entry.at == at)
        .map(|entry| entry.word)
}

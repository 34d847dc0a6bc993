// The storages of an engine, and where words of its table stand.
ghost use Rattle.std.specs.Prelude.{◌≡◌, ◌+◌, ◌-◌, ◌<◌, ◌≤◌, true, length};
ghost use Rattle.array_pages.specs.Spans.{IsArrayAt, IsSizeAt};
ghost use Rattle.engine_pages.specs.Layout.{page_at};
ghost use Rattle.engine_pages.specs.Pages.{is_array};

use engine_pages::Engine;
use homes::Span;
use serial_model::{Decl, Key};

/// The index of an array among the storages, and its size.
#[inline(always)]
pub(crate) fn array_of(engine: &Engine, storage: u8) -> (usize, u64)
    requires { is_array engine.now.table.shared.key.decls storage ≡ true }
    ensures { IsArrayAt engine.now.table.shared.key.decls storage result.0 result.1 }
{
    let root = engine.index_of(storage);
    match array_size(engine, root) {
        Some(size) => (root, u64::from(size)),
        None => (root, 0),
    }
}

// The size of the storage with this index, if it is an array.
#[inline(always)]
fn array_size(engine: &Engine, root: usize) -> Option<u32>
    requires { root < length engine.now.table.shared.key.decls }
    ensures { IsSizeAt engine.now.table.shared.key.decls root result }
{
    match engine.decls()[root] {
        Decl::Array { id: _, size } => Some(size),
        Decl::Tree { .. } => None,
    }
}

/// The place of a word of the page in a slot.
#[inline(always)]
pub fn word_at(engine: &Engine, slot: u32, index: u32) -> u32
    requires slot { slot < engine.now.table.shared.key.slots }
    requires index { index < 64 }
    ensures { result ≡ page_at engine.now.table.shared.key.slots slot index }
{
    32 + engine.slots() + 64 * slot + index
}

/// So many keys from this one on.
#[inline(always)]
pub(crate) fn span_from(key: Key, low: u64, count: u64) -> Span
    requires some { 0 < count }
    requires few { count ≤ 131072 }
    requires low { low < 131072 }
    ensures { result ≡ record { storage = key.storage; low = low; high = low + (count - 1) } }
{
    Span {
        storage: key.storage,
        low,
        high: low + (count - 1),
    }
}

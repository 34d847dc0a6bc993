// What snapshot pages have for keys.
ghost use Rattle.std.specs.Prelude.{◌≡◌, map, filter, IfOk};
ghost use Rattle.homes.specs.Homes.{in_span};
ghost use Rattle.commit_core.specs.Keys.{nothing};
ghost use Rattle.drop_core.specs.Table.{snap_home};
ghost use Rattle.engine_rule.specs.Pairs.{page_content, page_keys, snap_keys, pairs_for};

use drop_core::{SnapPage, Table};
use homes::{Content, Home, Span};
use lists::Sequence;
use serial_model::{Key, Memory, Number};
use std::alloc::Global;

/// The keys that some page has an entry of.
pub fn snap_keys(alloc: Global, snaps: &[(u32, SnapPage)]) -> Result<Sequence<Key>, Memory>
    ensures { IfOk result (λ keys. keys ≡ snap_keys snaps.now) }
{
    match snaps {
        [] => Ok(Sequence::new(alloc)),
        [snap, more @ ..] => {
            let mut keys = page_keys(alloc, &snap.1)?;
            let rest = snap_keys(alloc, more)?;
            keys.append(rest.as_slice())?;
            Ok(keys)
        }
    }
}

/// The keys that a page has entries of.
fn page_keys(alloc: Global, page: &SnapPage) -> Result<Sequence<Key>, Memory>
    ensures { IfOk result (λ keys. keys ≡ page_keys page.now) }
{
    match page {
        SnapPage::Missing | SnapPage::Children(_, _) => Ok(Sequence::new(alloc)),
        SnapPage::Entries(_, entries) => entry_keys(alloc, entries.as_slice()),
    }
}

fn entry_keys(alloc: Global, entries: &[(Key, Content)]) -> Result<Sequence<Key>, Memory>
    ensures { IfOk result (λ keys. keys ≡ map (λ e. e.0) entries.now) }
{
    let mut keys = Sequence::new(alloc);
    for entry in entries {
        keys.push(entry.0)?;
    }
    Ok(keys)
}

/// Those of the keys that the span has.
pub fn keys_of_span(alloc: Global, span: Span, keys: &[Key]) -> Result<Sequence<Key>, Memory>
    ensures { IfOk result (λ list. list ≡ filter (in_span span) keys.now) }
{
    let list = keys
        .iter()
        .copied()
        .filter(|key| span.has(*key))
        .collect(alloc)?;
    Ok(Sequence::from_vec(list))
}

/// What a snapshot page has for the keys.
pub fn pairs_for(
    alloc: Global,
    table: &Table,
    page: u32,
    keys: &[Key],
) -> Result<Sequence<(Key, Content)>, Memory>
    ensures { IfOk result (λ pairs. pairs ≡ pairs_for (snap_home table.now page) keys.now) }
{
    let mut pairs = Sequence::new(alloc);
    for key in keys {
        pairs.push((*key, page_content(table.home(page, *key))))?;
    }
    Ok(pairs)
}

/// What stands at a home in a snapshot page.
pub fn page_content(home: Home) -> Content
    ensures { result ≡ page_content home }
{
    match home {
        Home::InPage(_, content) => content,
        Home::InSlot(_) | Home::Nowhere => nothing(),
    }
}

/// What stands at a key that nobody wrote.
pub fn nothing() -> Content
    ensures { result ≡ nothing }
{
    Content {
        number: Number { epoch: 0, draw: 0 },
        value: None,
    }
}

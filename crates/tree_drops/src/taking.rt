// All pages of a chain are locked, one after another, as the snapshot has them, and the pointer is swung away from it.
ghost use Rattle.std.specs.Prelude.{◌≡◌, ◌*◌, ◌^◌, ◌<◌, ◌≤◌, suc, length, Some, Contains};
ghost use Rattle.engine_pages.specs.declared.view.KeptWhy.TheVariants.{Unlike, UnlikeAt};
ghost use Rattle.engine_pages.specs.declared.view.Moved.{Moved};
ghost use Rattle.engine_pages.specs.declared.view.Role.TheVariants.{Keeper};
ghost use Rattle.engine_pages.specs.Layout.{page_at};
ghost use Rattle.engine_pages.specs.Passes.{view, IsPassOf};
ghost use Rattle.engine_pages.specs.Steps.{seen_at};
ghost use Rattle.page_drops.specs.Works.{LacksKeyBelow};
ghost use Rattle.tree_heads.specs.Headers.{count_of, kind_of, IsTreeAt};
ghost use Rattle.tree_drops.specs.Chains.{split_header};
ghost use Rattle.tree_drops.specs.Leaves.{AtTree, KeptForHeader};
ghost use Rattle.tree_drops.specs.Taking.{CanTake, CanTakeKey, CanUndo, CanWorkOn, HasTaken, HasUndone, HasWorked, IsThatPage};

use crate::belows::leaf_for;
use crate::chains::SPLIT;
use crate::covering::cover;
use crate::records::{Leaf, compare, key_at, open_record, take_record};
use crate::visits::Target;
use chain_steps::{Half, seal, swing_chain, unseal};
use engine_pages::{Engine, KeptWhy, Pass};
use homes::Span;
use page_drops::{Kept, keep, word_at};
use serial_model::Key;
use tree_heads::{load_word, lock_header, open_header};

/// How many units of work a page has: its header, and the records of a leaf.
const UNITS: u32 = 17;

/// The first page of a chain: the pointer to it, its slot, and the word by which the pointer leads there.
#[derive(Clone, Copy)]
pub(crate) struct Root {
    pub target: Target,
    pub slot: u32,
    pub word: u64,
}

/// A page of a chain: its slot, its keys, and its header as it was found.
#[derive(Clone, Copy)]
pub(crate) struct ChainPage {
    pub slot: u32,
    pub span: Span,
    pub header: u64,
}

/// What a unit of work came to.
#[derive(Clone, Copy)]
pub(crate) enum Done {
    Nothing,
    Sealed,
    Headed,
    Recorded(Key, u64),
}

/// The page with this index: the halves, and the first page last.
pub(crate) fn page_of(root: Root, halves: &[Half], headers: &[u64], index: u32) -> ChainPage
    requires same { length headers.now ≡ length halves.now }
    requires within { index ≤ length halves.now }
    ensures page { IsThatPage root halves.now headers.now index result }
{
    let place = index as usize;
    if place == halves.len() {
        return ChainPage {
            slot: root.slot,
            span: root.target.span,
            header: SPLIT,
        };
    }
    let half = halves[place];
    ChainPage {
        slot: half.slot,
        span: Span {
            storage: root.target.span.storage,
            low: half.low,
            high: half.high,
        },
        header: headers[place],
    }
}

/// The page as a leaf that is compared with this leaf of the snapshot.
pub(crate) fn leaf_of(root: Root, page: ChainPage, stored: u32, records: u32) -> Leaf
    ensures { result ≡ record {
      slot = page.slot;
      span = page.span;
      count = count_of page.header;
      page = stored;
      records = records;
      epoch = (root.target).epoch;
    } }
{
    Leaf {
        slot: page.slot,
        span: page.span,
        count: (page.header % 256) as u32,
        page: stored,
        records,
        epoch: root.target.epoch,
    }
}

/// Locks the header of a split leaf by one try.
fn seal_page(engine: &Engine, pass: &mut Pass, root: Root, page: ChainPage) -> Result<Done, Kept>
    requires of { IsPassOf engine.now pass.old }
    requires keeper { (view pass.old).role ≡ Keeper }
    requires slot { page.slot < (view pass.old).layout.slots }
    requires page { IsTreeAt (view pass.old) page.slot page.span }
    requires moved { (x : Moved) × Contains (view pass.old).moved x × (x.slot ≡ page.slot) }
    requires split { page.header ≡ split_header }
    requires seen { seen_at (view pass.old).reads (page_at (view pass.old).layout.slots page.slot 0) ≡ Some page.header }
    ensures of { IsPassOf engine.now pass.new }
    ensures works { HasWorked root page 0 result (view pass.old) (view pass.new) }
{
    let _ = root;
    let at = word_at(engine, page.slot, 0);
    let found = seal(engine, pass, page.slot, page.span, at, page.header);
    if found != page.header {
        let changed = keep(
            engine,
            pass,
            at,
            found,
            KeptWhy::Changed {
                expected: page.header,
            },
        );
        return Err(changed);
    }
    Ok(Done::Sealed)
}

/// Locks the header of a leaf by one try.
fn lock_page(engine: &Engine, pass: &mut Pass, root: Root, page: ChainPage) -> Result<Done, Kept>
    requires of { IsPassOf engine.now pass.old }
    requires keeper { (view pass.old).role ≡ Keeper }
    requires slot { page.slot < (view pass.old).layout.slots }
    requires page { IsTreeAt (view pass.old) page.slot page.span }
    requires open { page.header < 2 ^ 60 }
    requires leaf { kind_of page.header ≡ 1 }
    requires seen { seen_at (view pass.old).reads (page_at (view pass.old).layout.slots page.slot 0) ≡ Some page.header }
    ensures of { IsPassOf engine.now pass.new }
    ensures works { HasWorked root page 0 result (view pass.old) (view pass.new) }
{
    let _ = root;
    let at = word_at(engine, page.slot, 0);
    let found = lock_header(engine, pass, page.slot, page.span, at, page.header);
    if found != page.header {
        let changed = keep(
            engine,
            pass,
            at,
            found,
            KeptWhy::Changed {
                expected: page.header,
            },
        );
        return Err(changed);
    }
    Ok(Done::Headed)
}

/// Locks the record with this index of a leaf, as the snapshot has it.
fn take_key(
    engine: &Engine,
    pass: &mut Pass,
    root: Root,
    page: ChainPage,
    index: u32,
) -> Result<Done, Kept>
    requires of { IsPassOf engine.now pass.old }
    requires take { CanTakeKey root page index (view pass.old) }
    ensures of { IsPassOf engine.now pass.new }
    ensures works { HasWorked root page (suc index) result (view pass.old) (view pass.new) }
{
    let bare = leaf_of(root, page, root.target.page, 0);
    let key = key_at(engine, pass, bare, index);
    let Some(stored) = leaf_for(engine, pass, root.target.span, root.target.page, key.key) else {
        let other = keep_first(engine, pass, root);
        return Err(other);
    };
    let leaf = leaf_of(root, page, stored.page, stored.records);
    let word = compare(engine, pass, leaf, index, key)?;
    take_record(engine, pass, leaf, index, key, word)?;
    Ok(Done::Recorded(key, word))
}

/// Loads the header's word of the chain's first page, and notes that the chain is kept for it, since a page of the
/// snapshot is misshapen.
pub(crate) fn keep_first(engine: &Engine, pass: &mut Pass, root: Root) -> Kept
    requires of { IsPassOf engine.now pass.old }
    requires at { AtTree root.slot (root.target).span (root.target).page (view pass.old) }
    ensures of { IsPassOf engine.now pass.new }
    ensures keeps { KeptForHeader root.slot Unlike result (view pass.old) (view pass.new) }
    ensures reads { (view pass.new).reads ≡ (view pass.old).reads }
{
    let at = word_at(engine, root.slot, 0);
    let header = load_word(engine, pass, root.slot, 0, at);
    keep(engine, pass, at, header, KeptWhy::Unlike)
}

/// The same, since no leaf of the chain has the key.
pub(crate) fn keep_missing(engine: &Engine, pass: &mut Pass, root: Root, key: Key) -> Kept
    requires of { IsPassOf engine.now pass.old }
    requires at { AtTree root.slot (root.target).span (root.target).page (view pass.old) }
    requires lacks { LacksKeyBelow (view pass.old) key root.slot }
    ensures of { IsPassOf engine.now pass.new }
    ensures keeps { KeptForHeader root.slot (UnlikeAt key) result (view pass.old) (view pass.new) }
    ensures reads { (view pass.new).reads ≡ (view pass.old).reads }
{
    let at = word_at(engine, root.slot, 0);
    let header = load_word(engine, pass, root.slot, 0, at);
    keep(engine, pass, at, header, KeptWhy::UnlikeAt { key })
}

/// Does one unit of work on a page.
fn work_on(
    engine: &Engine,
    pass: &mut Pass,
    root: Root,
    page: ChainPage,
    unit: u32,
) -> Result<Done, Kept>
    requires of { IsPassOf engine.now pass.old }
    requires work { CanWorkOn root page unit (view pass.old) }
    ensures of { IsPassOf engine.now pass.new }
    ensures works { HasWorked root page unit result (view pass.old) (view pass.new) }
{
    if page.header == SPLIT {
        if unit > 0 {
            return Ok(Done::Nothing);
        }
        return seal_page(engine, pass, root, page);
    }
    if unit == 0 {
        return lock_page(engine, pass, root, page);
    }
    if u64::from(unit) > page.header % 256 {
        return Ok(Done::Nothing);
    }
    take_key(engine, pass, root, page, unit - 1)
}

/// Undoes it.
fn undo(engine: &Engine, pass: &mut Pass, root: Root, page: ChainPage, unit: u32, done: Done)
    requires of { IsPassOf engine.now pass.old }
    requires keeper { (view pass.old).role ≡ Keeper }
    requires slot { page.slot < (view pass.old).layout.slots }
    requires undo { CanUndo root page unit done (view pass.old) }
    ensures of { IsPassOf engine.now pass.new }
    ensures undoes { HasUndone page unit done (view pass.old) (view pass.new) }
{
    let at = word_at(engine, page.slot, 0);
    match done {
        Done::Nothing => {}
        Done::Sealed => unseal(engine, pass, page.slot, page.span, at, SPLIT),
        Done::Headed => open_header(engine, pass, page.slot, page.span, at, page.header),
        Done::Recorded(key, word) => {
            let leaf = leaf_of(root, page, root.target.page, 0);
            open_record(engine, pass, leaf, unit - 1, key, word);
        }
    }
}

/// Swings the pointer away from the chain, all of which is locked, once each record of the snapshot was met.
fn swing_away(
    engine: &Engine,
    pass: &mut Pass,
    root: Root,
    halves: &[Half],
    headers: &[u64],
) -> Result<(), Kept>
    requires of { IsPassOf engine.now pass.old }
    requires take { CanTake root halves.now headers.now (17 * suc (length halves.now)) (view pass.old) }
    ensures of { IsPassOf engine.now pass.new }
    ensures takes { HasTaken root halves.now headers.now result (view pass.old) (view pass.new) }
{
    let target = root.target;
    cover(
        engine,
        pass,
        root,
        halves,
        headers,
        target.span,
        target.page,
    )?;
    let found = swing_chain(
        engine,
        pass,
        target.place,
        target.span,
        target.at,
        root.slot,
        halves,
        target.page,
        root.word,
    );
    if found != root.word {
        let changed = keep(
            engine,
            pass,
            target.at,
            found,
            KeptWhy::Changed {
                expected: root.word,
            },
        );
        return Err(changed);
    }
    Ok(())
}

/// Locks what is left of the chain from this unit of work on, as the snapshot has it, and swings the pointer away. Where
/// something is another, nothing of that is locked.
pub(crate) fn take_from(
    engine: &Engine,
    pass: &mut Pass,
    root: Root,
    halves: &[Half],
    headers: &[u64],
    unit: u32,
) -> Result<(), Kept>
    requires of { IsPassOf engine.now pass.old }
    requires take { CanTake root halves.now headers.now unit (view pass.old) }
    ensures of { IsPassOf engine.now pass.new }
    ensures takes { HasTaken root halves.now headers.now result (view pass.old) (view pass.new) }
{
    let index = unit / UNITS;
    if index as usize > halves.len() {
        return swing_away(engine, pass, root, halves, headers);
    }
    let page = page_of(root, halves, headers, index);
    let done = work_on(engine, pass, root, page, unit % UNITS)?;
    if let Err(kept) = take_from(engine, pass, root, halves, headers, unit + 1) {
        undo(engine, pass, root, page, unit % UNITS, done);
        return Err(kept);
    }
    Ok(())
}

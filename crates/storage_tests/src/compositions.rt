// Compositions worked by hand, and pseudo-random ones beside a map.
ghost use Rattle.std.specs.Prelude.{◌^◌, ◌+◌, ◌<◌, ◌≤◌, IfOk};
ghost use Rattle.snapshot_store.specs.Content.{words_of};
ghost use Rattle.root_composer.specs.Newest.{IsNewest};

mod ranges;
mod snapshots;

use lists::{Memory, OrMemory};
use ranges::{TreeRanges, array_pages, one_leaf, tree_pages};
use root_composer::ComposeFault;
use snapshots::{Change, Snapshots, fresh};
use std::alloc::Global;
use std::collections::BTreeMap;
use std::process::Abort;
use wire_form::{PageKind, is_page};

// Why there are no pages of the next snapshot, with these changes, where so many pages are let in.
fn refusal(
    alloc: Global,
    snapshots: &Snapshots,
    changes: &[Change],
    room: u32,
) -> Option<OrMemory<ComposeFault>>
    requires newest { IsNewest snapshots.now.decl snapshots.now.epoch (words_of snapshots.now.store.pages) }
    requires room { room ≤ 65536 }
{
    snapshots.new_pages(alloc, changes, room).err()
}

// The first snapshot, without pages: of an array of this size, or of a tree where it is 0.
fn first(alloc: Global, size: u32) -> Result<Snapshots, OrMemory<ComposeFault>>
    ensures { IfOk result (λ s. IsNewest s.decl s.epoch (words_of s.store.pages)) }
{
    let Ok(first) = fresh(alloc, size) else {
        return Err(OrMemory::Memory);
    };
    Ok(first)
}

// The next snapshot, with these changes.
fn next(
    alloc: Global,
    snapshots: Snapshots,
    changes: &[Change],
) -> Result<Snapshots, OrMemory<ComposeFault>>
    requires { IsNewest snapshots.decl snapshots.epoch (words_of snapshots.store.pages) }
    ensures { IfOk result (λ s. IsNewest s.decl s.epoch (words_of s.store.pages)) }
{
    snapshots.next(alloc, changes)
}

const A_PUT: [Change; 1] = [(5, Some(7))];

// The two pages of a leaf want room for three in all.
fn wants_room(rt: &impl Abort, alloc: Global, empty: &Snapshots)
    requires { IsNewest empty.now.decl empty.now.epoch (words_of empty.now.store.pages) }
{
    let full = ComposeFault::Limit {
        have: 1,
        new: 2,
        room: 2,
    };
    let refused = refusal(alloc, empty, &A_PUT, 2);
    assert!(rt; refused == Some(OrMemory::Fault(full)));
    let refused = refusal(alloc, empty, &A_PUT, 3);
    assert!(rt; refused.is_none());
}

// The leaf has the whole range, and 5 = 7 by 1:1; the catalogue names it, and the one before.
fn has_a_leaf(rt: &impl Abort, made: &Snapshots) {
    let mut want = [0; 64];
    (want[0], want[2]) = (257, u64::MAX);
    (want[16], want[17], want[18]) = (5, 1_099_511_627_777, 7);
    assert!(rt; made.words(2) == want);
    let mut want = [0; 64];
    (want[0], want[1], want[2]) = (0x4341_5400_0000_0001, 1, 1);
    (want[16], want[18]) = (514, 2);
    assert!(rt; made.words(3) == want);
    assert!(rt; made.count() == 3);
}

#[test]
fn a_tree_gets_its_first_leaf(rt: HostRuntime) {
    let empty = first(rt.alloc(), 0).expect(&rt, "a tree");
    wants_room(&rt, rt.alloc(), &empty);
    let made = next(rt.alloc(), empty, &A_PUT).expect(&rt, "two pages");
    has_a_leaf(&rt, &made);
}

// The number and kind of a page, and one of its words.
type Wanted = (u32, PageKind, usize, u64);

// Whether pages are of these kinds and have these words, the last of all among them.
fn has_pages(snapshots: &Snapshots, wanted: &[Wanted]) -> bool {
    let mut last = 0;
    for &(number, kind, at, word) in wanted {
        let words = snapshots.words(u64::from(number));
        if !is_page(kind, number, &words) || words[at % 64] != word {
            return false;
        }
        last = number;
    }
    last == snapshots.count()
}

// Whether these puts make just these pages in an array that has none.
fn makes(
    alloc: Global,
    size: u32,
    puts: &[Change],
    wanted: &[Wanted],
) -> Result<bool, OrMemory<ComposeFault>> {
    let empty = first(alloc, size)?;
    let made = next(alloc, empty, puts)?;
    Ok(has_pages(&made, wanted))
}

const SMALL: [Wanted; 2] = [
    (2, PageKind::ArrayLeaf { used: 4 }, 7, 9),
    (3, PageKind::Catalogue, 18, 2),
];

const PAST_A_CHILD: [Wanted; 4] = [
    (2, PageKind::ArrayLeaf { used: 1 }, 1, 9),
    (3, PageKind::ArrayInner { used: 1 }, 0, 2),
    (4, PageKind::ArrayInner { used: 2 }, 1, 3),
    (5, PageKind::Catalogue, 18, 4),
];

const AT_CORNERS: [Change; 4] = [
    (131_071, Some(4)),
    (0, Some(1)),
    (129_024, Some(3)),
    (2047, Some(2)),
];

const CORNERS: [Wanted; 8] = [
    (2, PageKind::ArrayLeaf { used: 32 }, 1, 1),
    (3, PageKind::ArrayLeaf { used: 32 }, 63, 2),
    (4, PageKind::ArrayInner { used: 64 }, 63, 3),
    (5, PageKind::ArrayLeaf { used: 32 }, 1, 3),
    (6, PageKind::ArrayLeaf { used: 32 }, 63, 4),
    (7, PageKind::ArrayInner { used: 64 }, 0, 5),
    (8, PageKind::ArrayInner { used: 64 }, 63, 7),
    (9, PageKind::Catalogue, 18, 8),
];

const ARRAYS: [(u32, &[Change], &[Wanted]); 3] = [
    (4, &[(3, Some(9))], &SMALL),
    (2049, &[(2048, Some(9))], &PAST_A_CHILD),
    (131_072, &AT_CORNERS, &CORNERS),
];

#[test]
fn arrays_get_their_first_pages(rt: HostRuntime) {
    for (size, puts, wanted) in &ARRAYS {
        let made = makes(rt.alloc(), *size, puts, wanted);
        assert_eq!(rt; made, Ok(true));
    }
}

// Changes of so many keys in a row: each is put as its own value, or removed.
fn changes(alloc: Global, first: u64, count: u64, put: bool) -> Result<Vec<Change>, Memory>
    requires { first + count < 2 ^ 63 }
{
    let mut changes = Vec::new(alloc);
    for key in first..first + count {
        changes.push((key, if put { Some(key) } else { None }))?;
    }
    Ok(changes)
}

// Snapshots of one tree of which each key from the first one on, so many, is put as its own value, or removed.
fn next_of_keys(
    alloc: Global,
    snapshots: Snapshots,
    first: u64,
    count: u64,
    put: bool,
) -> Result<Snapshots, OrMemory<ComposeFault>>
    requires newest { IsNewest snapshots.decl snapshots.epoch (words_of snapshots.store.pages) }
    requires keys { first + count < 2 ^ 63 }
    ensures { IfOk result (λ s. IsNewest s.decl s.epoch (words_of s.store.pages)) }
{
    let changes = changes(alloc, first, count, put)?;
    next(alloc, snapshots, &changes)
}

const LEFT: PageKind = PageKind::TreeLeaf { low: 0, high: 9 };

const RIGHT: PageKind = PageKind::TreeLeaf {
    low: 10,
    high: u64::MAX,
};

const ABOVE: PageKind = PageKind::TreeInner {
    low: 0,
    high: u64::MAX,
};

const SEVENTEEN: [Wanted; 4] = [
    (2, LEFT, 0, 256 + 9),
    (3, RIGHT, 0, 256 + 8),
    (4, ABOVE, 34, 10),
    (5, PageKind::Catalogue, 18, 4),
];

// Page 2 stays, with page 6 beside it.
const ONE_MORE: [Wanted; 4] = [
    (6, RIGHT, 0, 256 + 9),
    (7, ABOVE, 4, 2),
    (7, ABOVE, 5, 6),
    (8, PageKind::Catalogue, 18, 7),
];

// A leaf that empties stays a leaf.
const AN_EMPTY_LEAF: [Wanted; 4] = [
    (9, LEFT, 0, 256),
    (10, ABOVE, 4, 9),
    (10, ABOVE, 5, 6),
    (11, PageKind::Catalogue, 2, 8),
];

#[test]
fn a_tree_keeps_pages_without_changes(rt: HostRuntime) {
    let alloc = rt.alloc();
    let empty = first(alloc, 0).expect(&rt, "a tree");
    let made = next_of_keys(alloc, empty, 1, 17, true).expect(&rt, "17 records");
    assert!(rt; has_pages(&made, &SEVENTEEN));
    let made = next(alloc, made, &[(20, Some(20))]).expect(&rt, "one more");
    assert!(rt; has_pages(&made, &ONE_MORE));
    let made = next_of_keys(alloc, made, 1, 9, false).expect(&rt, "an empty leaf");
    assert!(rt; has_pages(&made, &AN_EMPTY_LEAF));
}

// A storage and its keys: the size of an array, or 0 for a tree; so many keys, this far apart.
#[derive(Clone, Copy)]
struct Keys {
    size: u32,
    count: u64,
    stride: u64,
}

// The number behind this one, by a linear congruence.
fn behind(random: u64) -> u64 {
    random
        .wrapping_mul(6_364_136_223_846_793_005)
        .wrapping_add(1_442_695_040_888_963_407)
}

// A pseudo-random change, a removal now and then where there may be some.
fn random_change(random: u64, keys: Keys, value: u64) -> Change
    requires { 0 < keys.count }
{
    let key = ((random >> 33) % keys.count).wrapping_mul(keys.stride);
    if keys.size == 0 && (random >> 20) % 4 == 0 {
        return (key, None);
    }
    (key, Some(value))
}

// The changes of a round.
fn random_changes(alloc: Global, round: u64, keys: Keys) -> Result<Vec<Change>, Memory>
    requires { 0 < keys.count }
{
    let mut changes = Vec::new(alloc);
    let mut random = round.wrapping_add(keys.count);
    for i in 0..80 {
        random = behind(random);
        let value = 100 * round.min(1000) + i;
        changes.push(random_change(random, keys, value))?;
    }
    Ok(changes)
}

// What goes on beside the snapshots: a map, and the ranges of a tree.
#[derive(Drop)]
struct Beside {
    map: BTreeMap<u64, u64>,
    tree: TreeRanges,
}

fn nothing_yet(alloc: Global) -> Result<Beside, Memory> {
    let tree = one_leaf(alloc)?;
    Ok(Beside {
        map: BTreeMap::new(alloc),
        tree,
    })
}

// The changes, one after another, over a map.
fn apply(map: &mut BTreeMap<u64, u64>, changes: &[Change]) -> Result<(), Memory> {
    for &(key, value) in changes {
        match value {
            Some(value) => {
                map.insert(key, value)?;
            }
            None => {
                map.remove(&key);
            }
        }
    }
    Ok(())
}

// How many pages the changes make, once the map has them.
fn pages_of(
    alloc: Global,
    beside: &mut Beside,
    size: u32,
    changes: &[Change],
) -> Result<usize, Memory> {
    apply(&mut beside.map, changes)?;
    let pages = tree_pages(alloc, &mut beside.tree, &beside.map, changes)?;
    if size == 0 {
        return Ok(pages);
    }
    array_pages(alloc, size, changes)
}

// Whether the newest snapshot has the map's values at these keys.
fn is_content(snapshots: &Snapshots, map: &BTreeMap<u64, u64>, keys: Keys) -> bool {
    for i in 0..keys.count {
        let key = i.wrapping_mul(keys.stride);
        if snapshots.value(key) != map.get(&key).copied() {
            return false;
        }
    }
    true
}

// The snapshot behind a round.
fn next_round(
    alloc: Global,
    snapshots: Snapshots,
    round: u64,
    keys: Keys,
) -> Result<Snapshots, OrMemory<ComposeFault>>
    requires newest { IsNewest snapshots.decl snapshots.epoch (words_of snapshots.store.pages) }
    requires keys { 0 < keys.count }
    ensures { IfOk result (λ s. IsNewest s.decl s.epoch (words_of s.store.pages)) }
{
    let changes = random_changes(alloc, round, keys)?;
    next(alloc, snapshots, &changes)
}

// Whether the snapshot behind a round has what the map then has, over pages for just the ranges with changes: so many
// pages were there before.
fn is_right(
    alloc: Global,
    snapshots: &Snapshots,
    beside: &mut Beside,
    round: u64,
    had: u32,
    keys: Keys,
) -> Result<bool, Memory>
    requires { 0 < keys.count }
{
    let changes = random_changes(alloc, round, keys)?;
    let wanted = pages_of(alloc, beside, keys.size, &changes)?;
    let made = snapshots.count().wrapping_sub(had) as usize;
    Ok((made == wanted) & is_content(snapshots, &beside.map, keys))
}

fn rounds(alloc: Global, beside: &mut Beside, keys: Keys) -> Result<bool, OrMemory<ComposeFault>>
    requires { 0 < keys.count }
{
    let mut snapshots = first(alloc, keys.size)?;
    let mut right = true;
    for round in 0..6 {
        let had = snapshots.count();
        snapshots = next_round(alloc, snapshots, round, keys)?;
        right = right & is_right(alloc, &snapshots, beside, round, had, keys)?;
    }
    Ok(right)
}

// Whether rounds of pseudo-random changes leave what they leave in a map.
fn random_rounds(alloc: Global, keys: Keys) -> Result<bool, OrMemory<ComposeFault>> {
    if keys.count == 0 {
        return Ok(false);
    }
    let mut beside = nothing_yet(alloc)?;
    rounds(alloc, &mut beside, keys)
}

// Arrays of one, two and three levels, and trees, one with keys far apart: the size, how many keys, and how far apart.
const STORAGES: [(u32, u64, u64); 5] = [
    (32, 32, 1),
    (2000, 2000, 1),
    (131_072, 1024, 127),
    (0, 60, 1),
    (0, 1000, 1 << 54),
];

#[test]
fn random_rounds_are_those_of_a_map(rt: HostRuntime) {
    for (size, count, stride) in &STORAGES {
        let keys = Keys {
            size: *size,
            count: *count,
            stride: *stride,
        };
        assert_eq!(rt; random_rounds(rt.alloc(), keys), Ok(true));
    }
}

// Headers and fences; the leaves are pages 2 and 3, and the right one begins at key 10.
fn is_cut_in_two(rt: &impl Abort, made: &Snapshots) {
    let (left, right, above) = (made.words(2), made.words(3), made.words(4));
    assert!(rt; &left[..3] == [256 + 9, 0, 9].as_slice());
    assert!(rt; &right[..3] == [256 + 8, 10, u64::MAX].as_slice());
    assert!(rt; &above[..3] == [512 + 2, 0, u64::MAX].as_slice());
    assert!(rt; (above[4], above[5], above[34]) == (2, 3, 10));
}

#[test]
fn seventeen_rows_are_cut_in_two(rt: HostRuntime) {
    let empty = first(rt.alloc(), 0).expect(&rt, "a tree");
    let made = next_of_keys(rt.alloc(), empty, 1, 17, true).expect(&rt, "two levels");
    is_cut_in_two(&rt, &made);
}

// A tree of so many levels, with eight keys in its last leaf: nine more cut it each time.
fn chain(alloc: Global, levels: u64) -> Result<Snapshots, OrMemory<ComposeFault>>
    requires { levels < 2 ^ 32 }
    ensures { IfOk result (λ s. IsNewest s.decl s.epoch (words_of s.store.pages)) }
{
    let empty = first(alloc, 0)?;
    let mut chain = next_of_keys(alloc, empty, 1, 8, true)?;
    for level in 1..levels {
        chain = next_of_keys(alloc, chain, 9 * level, 9, true)?;
    }
    Ok(chain)
}

// How many pages a tree of so many keys takes, all in all.
fn pages_in_all(alloc: Global, count: u64) -> Result<u32, OrMemory<ComposeFault>>
    requires { count < 2 ^ 32 }
{
    let empty = first(alloc, 0)?;
    let tree = next_of_keys(alloc, empty, 1, count, true)?;
    Ok(tree.count())
}

// How many pages are there once so many keys are put behind the eight in the last leaf of a chain of so many levels.
fn pages_behind(alloc: Global, levels: u64, count: u64) -> Result<u32, OrMemory<ComposeFault>>
    requires levels { levels < 2 ^ 32 }
    requires count { count < 2 ^ 32 }
{
    let chain = chain(alloc, levels)?;
    let more = next_of_keys(alloc, chain, 9 * levels, count, true)?;
    Ok(more.count())
}

const DEEP: OrMemory<ComposeFault> = OrMemory::Fault(ComposeFault::Deep);

// 480 keys of one leaf are cut into 30 runs, whose leaves and the page above them are one level more; with one key more
// the first run has 17, and is a page over two leaves.
#[test]
fn rows_past_a_full_page_take_a_third_level(rt: HostRuntime) {
    let alloc = rt.alloc();
    // So many keys take so many pages in place of a leaf; behind the eight keys in the last leaf of a chain of so many
    // levels as many more make as many, once within 32 levels, and once below them.
    for (count, pages, levels, more) in [(480, 31, 31, 472), (481, 33, 30, 473)] {
        let in_all = pages_in_all(alloc, count);
        assert!(rt; in_all == Ok(pages + 2));
        let within = pages_behind(alloc, levels, more);
        assert!(rt; within.is_ok());
        let deep = pages_behind(alloc, levels + 1, more);
        assert!(rt; deep == Err(DEEP));
    }
}

// Each level takes the pages above the leaf once more, three in its place, and a catalogue: 4 to 34 pages, behind the
// first catalogue, leaf and catalogue.
fn has_32_levels(rt: &impl Abort, chain: &Snapshots) {
    assert!(rt; chain.count() == 592);
    assert!(rt; chain.value(287) == Some(287));
}

#[test]
fn a_chain_ends_at_32_levels(rt: HostRuntime) {
    let alloc = rt.alloc();
    let refused = chain(alloc, 33).err();
    assert!(rt; refused == Some(DEEP));
    let chain = chain(alloc, 32).expect(&rt, "32 levels");
    has_32_levels(&rt, &chain);
    // One key more finds room in the last leaf; a page for each level is written, and the catalogue.
    let more = next(alloc, chain, &[(288, Some(7))]).expect(&rt, "one more");
    assert!(rt; (more.count(), more.value(288)) == (625, Some(7)));
}

// What both machines begin with over the words of a snapshot's pages: worked by hand.
use crate::joint::draws;
use crate::machines::{commits, content_at, happens, is_at, open_over, root_page, turns};
use commit_core::Act as CommitAct;
use drop_core::{Act as PageAct, Page as Layout, Pointer};
use engine_rule::{Joint, JointAct};
use homes::{At, Content, Holder, Home, Span, Spot};
use lists::Sequence;
use serial_model::{Change, Decl, Key, Memory, Number};
use std::alloc::Global;
use std::process::Abort;
use std::test::Fail;
use wire_form::{Page, PageKind};

/// The word of the number 1:1.
const ONE: u64 = (1 << 40) + 1;

/// What stands at a key with that number and this value.
fn content(value: u64) -> Content {
    Content {
        number: Number { epoch: 1, draw: 1 },
        value: Some(value),
    }
}

fn key(n: u64) -> Key {
    Key { storage: 1, key: n }
}

/// A page of 64 words, of which these are the first.
fn page(number: u32, kind: PageKind, first: &[u64]) -> Page {
    let mut words = [0; 64];
    for i in 0..64 {
        if i < first.len() {
            words[i] = first[i];
        }
    }
    Page {
        number,
        kind,
        words,
    }
}

// ---- two pointers that name one page

/// An array of 64 indexes: both leaves are page 1, which has 10 at its first index.
fn shared() -> [Page; 2] {
    [
        page(1, PageKind::ArrayLeaf { used: 32 }, &[ONE, 10]),
        page(2, PageKind::ArrayInner { used: 2 }, &[1, 1]),
    ]
}

/// Whether the page of the first range is named 1, that of the second one 2, and the root's page 3.
fn are_named(joint: &Joint) -> bool {
    let first = is_at(joint, key(0), Home::InPage(1, content(10)));
    let second = is_at(joint, key(32), Home::InPage(2, content(10)));
    first & second & (root_page(joint, 0) == 3)
}

/// Seat 1 copies the root's page into slot 0 and leads the root to it.
fn installs_root(joint: &mut Joint) -> Result<bool, Memory> {
    let given = turns(joint, 1, PageAct::Give(0))?;
    let laid_out = turns(joint, 1, PageAct::FillPage(0, Layout::Inner(64)))?;
    let filled = fills_root(joint)?;
    let published = turns(joint, 1, PageAct::Publish(0))?;
    let installed = turns(joint, 1, PageAct::Install(At::Root(0), 0))?;
    Ok(given & laid_out & filled & published & installed)
}

/// The pointer with this index in a copy of the root's page.
fn child(index: usize, page: u32) -> Pointer {
    let low = 32_u64.wrapping_mul(index as u64);
    Pointer {
        span: Span {
            storage: 1,
            low,
            high: low.wrapping_add(31),
        },
        slot: None,
        page,
        holder: Holder::Free,
    }
}

/// The name of the page below the root's, with this index.
fn name(index: usize) -> u32 {
    match index {
        0 => 1,
        1 => 2,
        _ => 0,
    }
}

fn fills_root(joint: &mut Joint) -> Result<bool, Memory> {
    let mut all = true;
    for index in 0..64 {
        let page = name(index);
        let spot = Spot { slot: 0, index };
        all = turns(joint, 1, PageAct::FillPointer(spot, child(index, page)))? & all;
    }
    Ok(all)
}

/// And the page of the second range into slot 1.
fn installs_second(joint: &mut Joint, alloc: Global) -> Result<bool, Memory> {
    let keys = Sequence::from_slice(alloc, &[key(32)])?;
    let record = Spot { slot: 1, index: 0 };
    let given = turns(joint, 1, PageAct::Give(1))?;
    let filled = happens(joint, 1, JointAct::FillRecord(record, content(10)))?;
    let laid_out = turns(joint, 1, PageAct::FillPage(1, Layout::Leaf(keys)))?;
    let published = turns(joint, 1, PageAct::Publish(1))?;
    let at = At::In(Spot { slot: 0, index: 1 });
    let installed = turns(joint, 1, PageAct::Install(at, 1))?;
    Ok(given & filled & laid_out & published & installed)
}

/// Seat 2 writes 11 at the first key of the second range.
fn writes_second(joint: &mut Joint) -> Result<bool, Memory> {
    let change = Change {
        key: key(32),
        value: Some(11),
    };
    let locked = commits(joint, 2, CommitAct::Lock(key(32)))?;
    let drawn = draws(joint, 2, Some(change))?;
    let decided = commits(joint, 2, CommitAct::Decide)?;
    let put = commits(joint, 2, CommitAct::Put(key(32)))?;
    let opened = commits(joint, 2, CommitAct::Open(key(32)))?;
    Ok(locked & drawn & decided & put & opened)
}

/// A page in memory stands for one of the ranges alone: what is written there is not in the other.
fn keeps_apart(rt: &impl Abort, joint: &mut Joint, alloc: Global) -> Result<(), Fail> {
    assert!(rt; are_named(joint));
    assert!(rt; installs_root(joint)?);
    assert!(rt; installs_second(joint, alloc)?);
    assert!(rt; writes_second(joint)?);
    assert_eq!(rt; content_at(joint, key(0)).value, Some(10));
    assert_eq!(rt; content_at(joint, key(32)).value, Some(11));
    Ok(())
}

/// Seats 0 to 2 and four slots.
fn runs_shared(rt: &impl Abort, alloc: Global, pages: &[Page; 2]) -> Result<(), Fail> {
    let decl = Decl::Array { id: 1, size: 64 };
    let mut joint = open_over(alloc, pages, decl, 2, 4, 3)?;
    keeps_apart(rt, &mut joint, alloc)
}

#[test]
fn one_page_stands_for_two_ranges(rt: HostRuntime) -> Result<(), Fail> {
    runs_shared(&rt, rt.alloc(), &shared())
}

// ---- a tree

/// A tree of two leaves: the first one has the keys 5 and 7, the second one begins at 100 and has that key.
fn tree() -> [Page; 3] {
    let all = PageKind::TreeInner {
        low: 0,
        high: u64::MAX,
    };
    [first_leaf(), second_leaf(), page(3, all, &root_words())]
}

fn first_leaf() -> Page {
    let kind = PageKind::TreeLeaf { low: 0, high: 99 };
    let mut words = [0; 22];
    words[0] = 256 + 2;
    words[2] = 99;
    words[16] = 5;
    words[17] = ONE;
    words[18] = 50;
    words[19] = 7;
    words[20] = ONE;
    words[21] = 70;
    page(1, kind, &words)
}

fn second_leaf() -> Page {
    let kind = PageKind::TreeLeaf {
        low: 100,
        high: u64::MAX,
    };
    let mut words = [0; 19];
    words[0] = 256 + 1;
    words[1] = 100;
    words[2] = u64::MAX;
    words[16] = 100;
    words[17] = ONE;
    words[18] = 1000;
    page(2, kind, &words)
}

/// The two leaves, and the separator between them.
fn root_words() -> [u64; 35] {
    let mut words = [0; 35];
    words[0] = 512 + 2;
    words[2] = u64::MAX;
    words[4] = 1;
    words[5] = 2;
    words[34] = 100;
    words
}

/// Where each key is: in the leaf whose range has it, or nowhere.
fn are_found(joint: &Joint) -> bool {
    let five = is_at(joint, key(5), Home::InPage(1, content(50)));
    let six = is_at(joint, key(6), Home::Nowhere);
    let seven = is_at(joint, key(7), Home::InPage(1, content(70)));
    let hundred = is_at(joint, key(100), Home::InPage(2, content(1000)));
    let last = is_at(joint, key(u64::MAX), Home::Nowhere);
    five & six & seven & hundred & last & (root_page(joint, 0) == 3)
}

fn looks_up(rt: &impl Abort, joint: &Joint) -> Result<(), Fail> {
    assert!(rt; are_found(joint));
    Ok(())
}

fn runs_tree(rt: &impl Abort, alloc: Global, pages: &[Page; 3]) -> Result<(), Fail> {
    let joint = open_over(alloc, pages, Decl::Tree { id: 1 }, 3, 4, 3)?;
    looks_up(rt, &joint)
}

#[test]
fn a_tree_is_read_along_its_separators(rt: HostRuntime) -> Result<(), Fail> {
    runs_tree(&rt, rt.alloc(), &tree())
}

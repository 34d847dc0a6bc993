use super::words_of;
use serial_model::{Decl, Number};
use wire_form::{
    ArrayRecord, PageKind, Stored, TreeRecord, array_child, array_record, child, child_range,
    count, epoch_and_previous, fences, is_page, separator, storage, tree_record,
};

const FIRST: Number = Number { epoch: 1, draw: 1 };

const NUMBER: u64 = 0x100_0000_0001;

fn has_kind(kind: PageKind, number: u32, words: &[u64; 64]) -> bool {
    is_page(kind, number, words)
}

fn array_at(words: &[u64; 64], i: usize) -> Option<ArrayRecord> {
    array_record(words, i % 32)
}

fn tree_at(words: &[u64; 64], i: usize) -> Option<TreeRecord> {
    tree_record(words, i % 16)
}

// A child of a tree's interior page, and its keys.
fn child_at(words: &[u64; 64], i: usize) -> (u64, (u64, u64)) {
    (child(words, i % 30), child_range(words, i % 30))
}

fn separators(words: &[u64; 64]) -> (u64, u64) {
    (separator(words, 0), separator(words, 1))
}

fn array_child_at(words: &[u64; 64], i: usize) -> u64 {
    array_child(words, i % 64)
}

// A storage of the catalogue that is page 3.
fn storage_at(words: &[u64; 64], i: usize) -> Option<Stored> {
    storage(3, words, i % 16)
}

fn bounds(words: &[u64; 64]) -> (usize, (u64, u64)) {
    (count(words), fences(words))
}

fn times(words: &[u64; 64]) -> (usize, (u64, u64)) {
    (count(words), epoch_and_previous(words))
}

const NEVER: ArrayRecord = ArrayRecord {
    number: None,
    value: 0,
};

const WRITTEN: ArrayRecord = ArrayRecord {
    number: Some(FIRST),
    value: 7,
};

const RECORD: TreeRecord = TreeRecord {
    key: 6,
    number: FIRST,
    value: 7,
};

#[test]
fn fields_of_leaves(rt: HostRuntime) {
    let words = words_of(&[(2, NUMBER), (3, 7)]);
    assert!(rt; has_kind(PageKind::ArrayLeaf { used: 2 }, 1, &words));
    assert!(rt; array_at(&words, 0) == Some(NEVER));
    assert!(rt; array_at(&words, 1) == Some(WRITTEN));
    let words = words_of(&[(0, 0x101), (1, 5), (2, 9), (16, 6), (17, NUMBER), (18, 7)]);
    assert!(rt; has_kind(PageKind::TreeLeaf { low: 5, high: 9 }, 1, &words));
    assert!(rt; bounds(&words) == (1, (5, 9)));
    assert!(rt; tree_at(&words, 0) == Some(RECORD));
    assert!(rt; tree_at(&words, 1).is_none(), "behind the count");
}

const INNER: [(usize, u64); 8] = [
    (0, 0x203),
    (1, 5),
    (2, 50),
    (4, 1),
    (5, 3),
    (6, 2),
    (34, 20),
    (35, 50),
];

const CHILDREN: [(u64, (u64, u64)); 3] = [(1, (5, 19)), (3, (20, 49)), (2, (50, 50))];

#[test]
fn fields_of_inner_pages(rt: HostRuntime) {
    let words = words_of(&INNER);
    assert!(rt; has_kind(PageKind::TreeInner { low: 5, high: 50 }, 4, &words));
    assert!(rt; bounds(&words) == (3, (5, 50)));
    for i in 0..3 {
        assert_eq!(rt; child_at(&words, i), CHILDREN[i]);
    }
    assert!(rt; separators(&words) == (20, 50));
    assert!(rt; array_child_at(&words, 6) == 2);
}

const CATALOGUE: [(usize, u64); 7] = [
    (0, 0x4341_5400_0000_0002),
    (1, 3),
    (2, 1),
    (16, 257),
    (17, 4),
    (18, 2),
    (19, 514),
];

const ARRAY: Stored = Stored {
    decl: Decl::Array { id: 1, size: 4 },
    root: 2,
};

const TREE: Stored = Stored {
    decl: Decl::Tree { id: 2 },
    root: 0,
};

#[test]
fn fields_of_catalogues(rt: HostRuntime) {
    let words = words_of(&CATALOGUE);
    assert!(rt; has_kind(PageKind::Catalogue, 3, &words));
    assert!(rt; times(&words) == (2, (3, 1)));
    assert!(rt; storage_at(&words, 0) == Some(ARRAY));
    assert!(rt; storage_at(&words, 1) == Some(TREE));
    assert!(rt; storage_at(&words, 2).is_none(), "behind the count");
}

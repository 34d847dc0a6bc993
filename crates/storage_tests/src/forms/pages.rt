use super::words_of;
use serial_model::Decl;
use wire_form::{Page, PageKind, Stored, catalogue_words, read_page, words_of_page, write_page};

const CATALOGUE: u64 = 0x4341_5400_0000_0000;
// Epoch 1, draw 1.
const NUMBER: u64 = 0x100_0000_0001;

fn is_read(kind: PageKind, number: u32, words: [u64; 64]) -> bool {
    let mut bytes = [9; 512];
    let page = Page {
        number,
        kind,
        words,
    };
    write_page(&page, &mut bytes);
    words_of_page(&bytes) == words && read_page(kind, number, &bytes) == Ok(page)
}

// Whether the page is read, but with none of the other words at those places.
fn is_strict(kind: PageKind, number: u32, good: [u64; 64], others: &[(usize, u64)]) -> bool {
    let mut strict = is_read(kind, number, good);
    for (at, word) in others {
        let mut words = good;
        if *at < 64 {
            words[*at] = *word;
            strict = strict & !is_read(kind, number, words);
        }
    }
    strict
}

const ARRAY: Stored = Stored {
    decl: Decl::Array { id: 1, size: 4 },
    root: 0,
};

fn first_words() -> [u64; 64] {
    catalogue_words(0, 0, &[ARRAY])
}

// The first catalogue of an array of 4, and that page with a root that is the page itself.
#[test]
fn first_catalogue(rt: HostRuntime) {
    let mut words = words_of(&[(0, 0x4341_5400_0000_0001), (16, 257), (17, 4)]);
    assert!(rt; is_read(PageKind::Catalogue, 1, words));
    assert!(rt; first_words() == words);
    words[18] = 1;
    assert!(rt; !is_read(PageKind::Catalogue, 1, words));
}

const NUMBERS: [(u32, bool); 4] = [(0, false), (1, true), (65_536, true), (65_537, false)];

fn first_bytes(words: [u64; 64]) -> [u8; 4] {
    let mut bytes = [0; 512];
    let page = Page {
        number: 1,
        kind: PageKind::Catalogue,
        words,
    };
    write_page(&page, &mut bytes);
    [bytes[0], bytes[1], bytes[2], bytes[3]]
}

// A page number out of range, and words of little-endian bytes.
#[test]
fn numbers_and_bytes(rt: HostRuntime) {
    let words = words_of(&[(0, CATALOGUE)]);
    for (number, want) in &NUMBERS {
        let found = is_read(PageKind::Catalogue, *number, words);
        assert!(rt; found == *want);
    }
    assert!(rt; first_bytes(words) == [0x43, 0x41, 0x54, 0]);
}

// From here on each rule of a kind is broken once.
const NO_ARRAY_LEAF: [(usize, u64); 6] = [
    (0, NUMBER + (1 << 60)), // a lock
    (0, NUMBER + (1 << 61)), // an absent record
    (0, 1), // no number
    (3, 1), // a value without a number
    (6, NUMBER), // a record that isn't used
    (63, 1), // the last word
];

const NO_ARRAY_INNER: [(usize, u64); 6] = [
    (0, 5), // the page itself
    (1, 6), // a page above its own
    (1, 1 << 32), // a slot
    (1, 1 << 60), // a pointer that is shut
    (3, 1), // a child that isn't used
    (63, 1), // the last word
];

const RECORDS: [(u32, bool); 4] = [(0, false), (2, false), (32, true), (33, false)];

const CHILDREN: [(u32, bool); 4] = [(0, false), (2, false), (64, true), (65, false)];

#[test]
fn array_pages(rt: HostRuntime) {
    let leaf = words_of(&[(0, NUMBER), (1, 7), (4, NUMBER), (5, 8)]);
    assert!(rt; is_strict(PageKind::ArrayLeaf { used: 3 }, 1, leaf, &NO_ARRAY_LEAF));
    for (used, want) in &RECORDS {
        let found = is_read(PageKind::ArrayLeaf { used: *used }, 1, leaf);
        assert_eq!(rt; found, *want);
    }
    let inner = words_of(&[(0, 2), (2, 4)]);
    assert!(rt; is_strict(PageKind::ArrayInner { used: 3 }, 5, inner, &NO_ARRAY_INNER));
    for (used, want) in &CHILDREN {
        let found = is_read(PageKind::ArrayInner { used: *used }, 5, inner);
        assert_eq!(rt; found, *want);
    }
}

#[test]
fn tree_leaves(rt: HostRuntime) {
    let kind = PageKind::TreeLeaf { low: 10, high: 20 };
    let empty = words_of(&[(0, 0x100), (1, 10), (2, 20)]);
    assert!(rt; is_read(kind, 1, empty));
    let leaf = words_of(&[
        (0, 0x102),
        (1, 10),
        (2, 20),
        (16, 10),
        (17, NUMBER),
        (18, 7),
        (19, 20),
        (20, NUMBER),
    ]);
    let others = [
        (0, 0x202), // the header of an interior page
        (0, 0x101), // one record more than counted
        (0, 0x111), // 17 records
        (0, 0x102 + (1 << 60)), // a lock
        (0, 0x102 + (1 << 62)), // a moved page
        (1, 9), // another low fence
        (2, 21), // another high fence
        (3, 1), // a half
        (15, 1), // a word between
        (16, 9), // a key below the low fence
        (16, 20), // equal keys
        (19, 21), // a key above the high fence
        (17, NUMBER + (1 << 60)), // a record that is locked
        (17, NUMBER + (1 << 61)), // an absent record
        (17, 0), // no number
        (22, 1), // a record behind the count
        (63, 1), // the last word
    ];
    assert!(rt; is_strict(kind, 1, leaf, &others));
}

#[test]
fn tree_inner_pages(rt: HostRuntime) {
    let kind = PageKind::TreeInner { low: 10, high: 20 };
    let inner = words_of(&[
        (0, 0x203),
        (1, 10),
        (2, 20),
        (4, 1),
        (5, 4),
        (6, 2),
        (34, 11),
        (35, 20),
    ]);
    let others = [
        (0, 0x103), // the header of a leaf
        (0, 0x202), // one child more than counted
        (0, 0x204), // one child less
        (0, 0x21F), // 31 children
        (0, 0x203 + (1 << 60)), // a lock
        (0, 0x203 + (1 << 62)), // a moved page
        (1, 9), // another low fence
        (2, 21), // another high fence
        (3, 1), // the zero word
        (4, 0), // no child
        (5, 5), // the page itself
        (6, 1 << 32), // a slot alone
        (7, 1), // a child behind the count
        (34, 10), // a separator at the low fence
        (35, 11), // equal separators
        (35, 21), // a separator above the high fence
        (36, 20), // a separator behind the count
        (63, 1), // the last word
    ];
    assert!(rt; is_strict(kind, 5, inner, &others));
    let one = words_of(&[(0, 0x201), (1, 10), (2, 20), (4, 1)]);
    assert!(rt; !is_read(kind, 5, one), "one child");
}

#[test]
fn catalogues(rt: HostRuntime) {
    let words = words_of(&[
        (0, CATALOGUE + 2),
        (1, 5),
        (2, 1),
        (16, 257),
        (17, 4),
        (18, 2),
        (19, 514),
    ]);
    let others = [
        (0, CATALOGUE + 1), // one storage more than counted
        (0, CATALOGUE + 17), // 17 storages
        (0, 2), // another first word
        (1, (1 << 20) - 2), // an epoch that isn't saved
        (2, 3), // the catalogue itself
        (3, 1), // a word between
        (16, 1), // no kind
        (16, 769), // no such kind
        (17, 0), // an array of none
        (17, 131_073), // an array that is too large
        (18, 3), // a root that is the catalogue
        (19, 513), // equal ids
        (20, 1), // the size of a tree
        (22, 257), // a storage behind the count
        (63, 1), // the last word
    ];
    assert!(rt; is_strict(PageKind::Catalogue, 3, words, &others));
}

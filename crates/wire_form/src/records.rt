// What the pages of arrays, trees and catalogues list, each item as the words of its page.
ghost use Rattle.std.specs.Prelude.{◌≡◌, ◌<◌, ◌≤◌, [], ◌∷◌};
ghost use Rattle.wire_form.specs.Items.{Reads};
ghost use Rattle.wire_form.specs.Pages.{IsArrayRecord, array_record_words, IsTreeRecord, tree_record_words, IsStored, stored_words, stored_id};

use crate::record_word::read_number;
use serial_model::{Decl, Number};

/// A record of an array. One that was never written has no number, and the value 0.
#[derive(Clone, Copy, Debug, PartialEq, Eq)]
pub struct ArrayRecord {
    pub number: Option<Number>,
    pub value: u64,
}

impl ArrayRecord {
    /// The record of two words.
    pub fn of_words(number: u64, value: u64) -> Option<ArrayRecord>
        ensures { Reads IsArrayRecord array_record_words (number ∷ value ∷ []) result }
    {
        if number == 0 {
            let never = ArrayRecord {
                number: None,
                value: 0,
            };
            return if value == 0 { Some(never) } else { None };
        }
        match read_number(number) {
            Some(number) => Some(ArrayRecord {
                number: Some(number),
                value,
            }),
            None => None,
        }
    }
}

/// A record of a tree that is present.
#[derive(Clone, Copy, Debug, PartialEq, Eq)]
pub struct TreeRecord {
    pub key: u64,
    pub number: Number,
    pub value: u64,
}

impl TreeRecord {
    /// The record of three words in a page with these fences.
    pub fn of_words(low: u64, high: u64, key: u64, number: u64, value: u64) -> Option<TreeRecord>
        ensures { Reads (IsTreeRecord low high) tree_record_words (key ∷ number ∷ value ∷ []) result }
    {
        if key < low || high < key {
            return None;
        }
        let number = read_number(number)?;
        Some(TreeRecord { key, number, value })
    }
}

/// A storage of a catalogue, with the page number of its root, or 0 for none.
#[derive(Clone, Copy, Debug, PartialEq, Eq)]
pub struct Stored {
    pub decl: Decl,
    pub root: u32,
}

impl Stored {
    /// The storage's id.
    pub fn id(&self) -> u64
        ensures { result ≡ stored_id self.now }
    {
        match self.decl {
            Decl::Array { id, .. } | Decl::Tree { id } => u64::from(id),
        }
    }

    /// The three words of the storage.
    pub fn words(&self) -> [u64; 3]
        ensures { result ≡ stored_words self.now }
    {
        let root = u64::from(self.root);
        match self.decl {
            Decl::Array { id, size } => [u64::from(id) + 256, u64::from(size), root],
            Decl::Tree { id } => [u64::from(id) + 512, 0, root],
        }
    }

    /// The storage of three words in a catalogue with this page number.
    pub fn of_words(page: u32, head: u64, size: u64, root: u64) -> Option<Stored>
        ensures { Reads (IsStored page) stored_words (head ∷ size ∷ root ∷ []) result }
    {
        if root >= u64::from(page) {
            return None;
        }
        let root = root as u32;
        match head / 256 {
            1 if 1 <= size && size <= 131_072 => {
                let id = (head % 256) as u8;
                let size = size as u32;
                Some(Stored {
                    decl: Decl::Array { id, size },
                    root,
                })
            }
            2 if size == 0 => {
                let id = (head % 256) as u8;
                Some(Stored {
                    decl: Decl::Tree { id },
                    root,
                })
            }
            _ => None,
        }
    }
}

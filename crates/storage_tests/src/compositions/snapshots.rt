// Snapshots of one storage, each composed over the one before.
ghost use Rattle.std.specs.Prelude.{◌≡◌, ◌+◌, ◌<◌, ◌≤◌, ◌++◌, [], ◌∷◌, true, IfOk, IfSome, length, map};
ghost use Rattle.std.specs.List.{AllByRecursion};
ghost use Rattle.serial_model.specs.Decls.{IsDecl};
ghost use Rattle.serial_model.specs.Keys.{IsKeyBelow};
ghost use Rattle.serial_model.specs.Numbers.{last_epoch};
ghost use Rattle.wire_form.specs.Items.{Rises};
ghost use Rattle.outside.specs.MemoryDisk.{tells_of};
ghost use Rattle.snapshot_store.specs.Store.{HoldsPages, NumberedFrom};
ghost use Rattle.snapshot_store.specs.Content.{words_of};
ghost use Rattle.log_reducer.specs.Reduced.{entry_key};
ghost use Rattle.root_composer.specs.Composition.{IsEntryOf};
ghost use Rattle.root_composer.specs.Newest.{IsNewest};

use lists::{Memory, OrMemory, Sequence};
use log_reducer::reduce;
use outside::MemDisk;
use root_composer::{ComposeFault, NewPages, compose};
use serial_model::{Decl, Key, Number};
use snapshot_store::{SnapStore, StoreFault};
use std::alloc::Global;
use wire_form::{Bucket, Entry, Page, PageKind, Run, Stored, catalogue_words};

/// A key, and its new value, or none where it is removed.
pub type Change = (u64, Option<u64>);

/// How many snapshots are composed at most.
const MOST: u32 = 100;

/// A store whose last page is the catalogue of the newest snapshot.
#[derive(Drop)]
pub struct Snapshots {
    store: SnapStore,
    disk: MemDisk,
    decl: Decl,
    epoch: u32,
    ghost sound: { store.sound ≡ true },
    ghost holds: { HoldsPages tells_of disk store.pages },
}

// An array of this size, or a tree where it is 0.
fn decl_of(size: u32) -> Decl
    ensures { IsDecl result }
{
    if size == 0 {
        return Decl::Tree { id: 2 };
    }
    Decl::Array {
        id: 2,
        size: size.min(131_072),
    }
}

/// The first snapshot, without pages: of an array of this size, or of a tree where it is 0.
pub fn fresh(alloc: Global, size: u32) -> Result<Snapshots, OrMemory<StoreFault>>
    ensures { IfOk result (λ s. IsNewest s.decl s.epoch (words_of s.store.pages)) }
{
    let decl = decl_of(size);
    let mut disk = MemDisk::new(alloc, Vec::new(alloc), Vec::new(alloc))?;
    let mut store = SnapStore::load(alloc, &mut disk, 0)?;
    let page = Page {
        number: 1,
        kind: PageKind::Catalogue,
        words: catalogue_words(0, 0, &[Stored { decl, root: 0 }]),
    };
    store.append(&mut disk, &[page])?;
    Ok(Snapshots {
        store,
        disk,
        decl,
        epoch: 0,
    })
}

// A change as an entry of the storage, where it has a place there.
fn entry(decl: Decl, epoch: u32, draw: u64, change: Change) -> Option<Entry>
    requires some { 1 ≤ epoch }
    requires most { epoch < last_epoch }
    ensures { IfSome result (IsEntryOf (decl ∷ []) epoch) }
{
    let (key, value) = change;
    let storage = match decl {
        Decl::Array { id, size } => {
            if key >= u64::from(size) || value.is_none() {
                return None;
            }
            id
        }
        Decl::Tree { id } => id,
    };
    if draw == 0 || draw >= 1 << 40 {
        return None;
    }
    Some(Entry {
        key: Key { storage, key },
        number: Number { epoch, draw },
        value,
    })
}

// The changes as a run: of those of one key the last.
fn run_of(alloc: Global, decl: Decl, epoch: u32, changes: &[Change]) -> Result<Run, Memory>
    requires some { 1 ≤ epoch }
    requires most { epoch < last_epoch }
    ensures each { IfOk result (AllByRecursion (IsEntryOf (decl ∷ []) epoch)) }
    ensures rising { IfOk result (λ run. Rises IsKeyBelow (map entry_key run)) }
{
    let mut entries = Vec::new(alloc);
    for i in 0..changes.len() {
        let Some(entry) = entry(decl, epoch, i as u64 + 1, changes[i]) else {
            return Err(Memory);
        };
        entries.push(entry)?;
    }
    let bucket = Bucket {
        bank: 0,
        storage: 2,
        entries: Sequence::from_vec(entries),
    };
    reduce(alloc, &[bucket])
}

impl Snapshots {
    /// The pages of the next snapshot, with these changes.
    pub fn new_pages(
        &self,
        alloc: Global,
        changes: &[Change],
        room: u32,
    ) -> Result<NewPages, OrMemory<ComposeFault>>
        requires newest { IsNewest self.now.decl self.now.epoch (words_of self.now.store.pages) }
        requires room { room ≤ 65536 }
        ensures numbered { IfOk result (λ pages. NumberedFrom (length self.now.store.pages + 1) pages) }
        ensures few { IfOk result (λ pages. self.now.epoch < 100) }
        ensures newest { IfOk result (λ pages. IsNewest self.now.decl (self.now.epoch + 1)
            (words_of (self.now.store.pages ++ pages))) }
    {
        if self.epoch >= MOST {
            return Err(OrMemory::Memory);
        }
        let epoch = self.epoch + 1;
        let run = run_of(alloc, self.decl, epoch, changes)?;
        compose(alloc, &self.store, self.store.count(), &run, epoch, room)
    }

    /// The next snapshot, with these changes.
    pub fn next(
        self,
        alloc: Global,
        changes: &[Change],
    ) -> Result<Snapshots, OrMemory<ComposeFault>>
        requires { IsNewest self.decl self.epoch (words_of self.store.pages) }
        ensures { IfOk result (λ s. IsNewest s.decl s.epoch (words_of s.store.pages)) }
    {
        let pages = self.new_pages(alloc, changes, 65_536)?;
        let Snapshots {
            mut store,
            mut disk,
            decl,
            epoch,
        } = self;
        let Ok(_) = store.append(&mut disk, pages.as_slice()) else {
            return Err(OrMemory::Memory);
        };
        Ok(Snapshots {
            store,
            disk,
            decl,
            epoch: epoch + 1,
        })
    }

    /// How many pages there are.
    pub fn count(&self) -> u32 {
        self.store.count()
    }

    /// The words of a page, or zeros where there is none.
    pub fn words(&self, number: u64) -> [u64; 64] {
        if number == 0 || number > u64::from(self.store.count()) {
            return [0; 64];
        }
        self.store.page(number as u32).words
    }

    // The words of the root.
    fn root(&self) -> [u64; 64] {
        self.words(self.words(u64::from(self.store.count()))[18])
    }

    /// The value of a key, by the pages from the root on.
    pub fn value(&self, key: u64) -> Option<u64> {
        match self.decl {
            Decl::Array { size, .. } => self.array_value(size, key),
            Decl::Tree { .. } => self.tree_value(key),
        }
    }

    fn array_value(&self, size: u32, index: u64) -> Option<u64> {
        let mut words = self.root();
        if size > 2048 {
            words = self.words(words[(index / 2048 % 64) as usize]);
        }
        if size > 32 {
            words = self.words(words[(index / 32 % 64) as usize]);
        }
        let at = 2 * (index % 32) as usize;
        if words[at] == 0 {
            None
        } else {
            Some(words[at + 1])
        }
    }

    fn tree_value(&self, key: u64) -> Option<u64> {
        let mut words = self.root();
        for _ in 0..32 {
            if words[0] / 256 == 2 {
                words = self.words(child(&words, key));
            }
        }
        value_in_leaf(&words, key)
    }
}

// The child with a key, of an interior page of a tree.
fn child(words: &[u64; 64], key: u64) -> u64 {
    let mut child = words[4];
    for i in 1..30 {
        if (i as u64) < words[0] % 256 && words[33 + i] <= key {
            child = words[4 + i];
        }
    }
    child
}

// The value of a key in a leaf of a tree.
fn value_in_leaf(words: &[u64; 64], key: u64) -> Option<u64> {
    for i in 0..16 {
        if (i as u64) < words[0] % 256 && words[16 + 3 * i] == key {
            return Some(words[18 + 3 * i]);
        }
    }
    None
}

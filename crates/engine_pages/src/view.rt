// What a pass knows.
use crate::Layout;
use commit_core::{Attempt, Seat, Word};
use drop_core::Grip;
use homes::{At, Content, Span, Spot};
use lists::Sequence;
use serial_model::{Key, Number};

/// Whose pass it is.
#[derive(Clone, Copy, Debug, PartialEq, Eq)]
pub enum Role {
    /// The maintenance thread's.
    Keeper,
    Worker(u8),
    /// What a pass had seen, on its way to another one.
    Note,
    /// It was taken into another one.
    Spent,
}

/// A load or compare_exchange.
#[derive(Clone, Copy, Debug, PartialEq, Eq)]
pub struct Glance {
    /// The count of the pass's steps before it.
    pub step: u64,
    /// The word's place in the table.
    pub word: u32,
    pub seen: u64,
}

/// A value that was loaded between two loads of its record's word.
#[derive(Clone, Copy, Debug, PartialEq, Eq)]
pub struct Loaded {
    pub key: Key,
    /// Where the record stands.
    pub spot: Spot,
    pub value: u64,
}

/// A lock: its key, and the record's word as it was found.
#[derive(Clone, Copy, Debug, PartialEq, Eq)]
pub struct Took {
    pub key: Key,
    /// Where the record stands.
    pub spot: Spot,
    pub word: u64,
}

/// A mark's word that was loaded.
#[derive(Clone, Copy, Debug, PartialEq, Eq)]
pub struct Met {
    pub worker: u8,
    pub word: u64,
    /// Its place among the marks that the worker's seat has set.
    pub place: u64,
}

/// A word of a record or a pointer, as a transaction last saw or left it.
#[derive(Clone, Copy, Debug, PartialEq, Eq)]
pub struct Read {
    /// The word's place in the table.
    pub word: u32,
    pub seen: u64,
    /// What the transaction had seen or left there before, if it had met it.
    pub was: Option<u64>,
    /// A pointer's word as the transaction keeps it as a part, if it does.
    pub kept: Option<u64>,
}

/// A lock that a seat took of a key, or met there.
#[derive(Clone, Copy, Debug, PartialEq, Eq)]
pub struct Touch {
    pub seat: u8,
    pub key: Key,
}

/// What a pass had seen as it took another one in, and what that one had.
#[derive(Drop)]
pub struct Heard {
    pub history: Sequence<Attempt>,
    pub decided: Sequence<Number>,
    /// The clock's epoch as it was last seen.
    pub epoch: u32,
}

/// A slot that the pass holds and has found something to lead to since: its page is over these keys for as long as it
/// is held.
#[derive(Clone, Copy, Debug, PartialEq, Eq)]
pub struct Way {
    pub slot: u32,
    pub span: Span,
}

/// A pointer that the pass has shut, with the word that it found.
#[derive(Clone, Copy, Debug, PartialEq, Eq)]
pub struct Shut {
    pub at: At,
    pub word: u64,
}

/// Why a page was kept as pages were dropped.
#[derive(Clone, Copy, Debug, PartialEq, Eq)]
pub enum KeptWhy {
    /// The word was locked or shut.
    Locked,
    /// The word, or its value, is unlike the newest snapshot's.
    Unlike,
    /// What stands at this key of a tree is unlike the newest snapshot's, or one of both has nothing there: by the word
    /// of its record, or its value, or of the header of a leaf that has no record of it.
    UnlikeAt { key: Key },
    /// The pointer leads to a slot.
    Under,
    /// The word was this one right before.
    Changed { expected: u64 },
    /// The word is the header of a leaf that was split into too many.
    Long,
}

/// A page that was kept as pages were dropped, by the word that was seen.
#[derive(Clone, Copy, Debug, PartialEq, Eq)]
pub struct KeptPage {
    /// The count of the pass's steps before that load.
    pub step: u64,
    /// The word's place in the table.
    pub word: u32,
    pub seen: u64,
    pub why: KeptWhy,
}

/// How many pages a call dropped and kept.
#[derive(Clone, Copy, Debug, PartialEq, Eq)]
pub struct Dropped {
    pub dropped: u32,
    pub kept: u32,
}

/// The words of the page of a slot that the pass owns. Nobody else stores there.
#[derive(Drop)]
pub struct Draft {
    pub slot: u32,
    pub words: Sequence<u64>,
}

/// A slot that the pass published and has not led to yet: its page is over these keys and says what the snapshot page
/// with this number does, or is empty for 0.
#[derive(Clone, Copy, Debug, PartialEq, Eq)]
pub struct Copied {
    pub slot: u32,
    pub span: Span,
    pub page: u32,
}

/// A snapshot page, by its number, that stands for these keys: a pointer over them was found to have the number. Page 0
/// is none.
#[derive(Clone, Copy, Debug, PartialEq, Eq)]
pub struct Lead {
    pub span: Span,
    pub page: u32,
    /// What the machine of pages calls the page where it stands for these keys.
    pub name: u32,
}

/// The words of a snapshot page, by its number, that is not published yet. Nobody but the keeper stores there.
#[derive(Drop)]
pub struct Filled {
    pub page: u32,
    pub words: Sequence<u64>,
}

/// The first keys of a leaf of a tree in a slot that the pass holds. They stay there, also once the leaf is split.
#[derive(Drop)]
pub struct Known {
    pub slot: u32,
    pub keys: Sequence<Key>,
}

/// A leaf of a tree whose header the pass has locked: its keys, and the words of its page, of which those that no
/// record has are the pass's alone.
#[derive(Drop)]
pub struct Head {
    pub slot: u32,
    pub keys: Sequence<Key>,
    pub words: Sequence<u64>,
}

/// An interior page of a tree in a slot that the pass holds: the first keys of its children but the first one. They
/// stay there.
#[derive(Drop)]
pub struct Inner {
    pub slot: u32,
    pub separators: Sequence<u64>,
}

/// A leaf of a tree in a slot that the pass published and has not led to yet: it is made for the keys of the span, has
/// records of these, in this order, and these contents stand there.
#[derive(Drop)]
pub struct NewLeaf {
    pub slot: u32,
    pub span: Span,
    pub keys: Sequence<Key>,
    pub contents: Sequence<Content>,
}

/// An interior page of a tree in a slot that the pass published and has not led to yet: it says what the snapshot page
/// with this number does.
#[derive(Clone, Copy, Debug, PartialEq, Eq)]
pub struct NewInner {
    pub slot: u32,
    pub span: Span,
    pub page: u32,
}

/// What stood at a key at first, or was written there.
#[derive(Clone, Copy, Debug, PartialEq, Eq)]
pub struct Version {
    pub key: Key,
    pub content: Content,
}

/// A pointer that the pass swung away from a slot.
#[derive(Clone, Copy, Debug, PartialEq, Eq)]
pub struct Swung {
    /// The word's place in the table.
    pub word: u32,
    pub slot: u32,
}

/// A leaf that was split, in a slot that the pass holds.
#[derive(Clone, Copy, Debug, PartialEq, Eq)]
pub struct Moved {
    pub slot: u32,
    pub minor: u32,
    pub major: u32,
    pub separator: u64,
}

/// Why a transaction was refused.
#[derive(Clone, Copy, Debug, PartialEq, Eq)]
pub enum RefusalCause {
    /// The word at this place was locked, or was not as it was seen before.
    Conflict { word: u32, expected: u64, seen: u64 },
    /// No slot was usable. The lowest one that was retired, with its word, if any was.
    Full { held: Option<(u32, u64)> },
    /// A set was full.
    Wide { set: SetName },
    /// The clock, which had this word, is at the last draws.
    NumberLimit { clock: u64 },
}

/// A set of a transaction.
#[derive(Clone, Copy, Debug, PartialEq, Eq)]
pub enum SetName {
    Reads,
    Writes,
    Pointers,
    Holds,
}

/// No value of it is made: a view exists in contracts and proofs alone.
#[derive(Drop)]
pub struct View {
    pub layout: Layout,
    pub role: Role,
    /// Of the keeper: the workers that are seated now.
    pub made: Sequence<u8>,
    /// Of the keeper: an epoch that is over, at first that before the first number's.
    pub past: u32,
    /// Of the keeper: the seats of the workers that are not seated, each at its number.
    pub parked: Sequence<Seat>,
    /// How many steps the pass made, cuts and joins aside.
    pub steps: u64,
    /// The clock's epoch as the pass last loaded or left it.
    pub epoch: u32,
    /// The attempts that it has seen.
    pub history: Sequence<Attempt>,
    /// The decisions that it has seen.
    pub decided: Sequence<Number>,
    /// What it and the pass that it took in last had seen, until it loads the clock.
    pub heard: Sequence<Heard>,
    /// Its own commits, and those of the passes that were ended into it, in order of number.
    pub mine: Sequence<Attempt>,
    /// How many numbers it drew, with those of the passes that were ended into it.
    pub draws: u64,
    /// Its transaction has yet to draw.
    pub due: bool,
    /// Its seat in the machine of commits.
    pub seat: Seat,
    /// The words that its attempt in progress has checked.
    pub checked: Sequence<Word>,
    /// The locks that it has.
    pub took: Sequence<Took>,
    /// Each word of a record or a pointer that its transaction met, until the next one begins.
    pub reads: Sequence<Read>,
    /// The slots that it left since its transaction began.
    pub gone: Sequence<u32>,
    /// What its transactions were refused for, and those of the passes that were ended into it.
    pub refused: Sequence<RefusalCause>,
    /// The locks that its seat took, and those of the passes that were ended into it. As the keeper seats the first
    /// worker, it forgets all that it had.
    pub touched: Sequence<Touch>,
    /// At which keys its seat's transactions were refused with `Conflict`, and those of the passes that were ended into
    /// it, until the keeper seats the first worker again.
    pub blamed: Sequence<Touch>,
    /// Its last load or compare_exchange.
    pub last: Option<Glance>,
    /// The value that it loaded last.
    pub loaded: Option<Loaded>,
    /// The marks that it loaded.
    pub met: Sequence<Met>,
    /// Its part of the machine of pages: the slots that it holds, made and took away.
    pub grip: Grip,
    /// What it knows of the slots that it holds.
    pub ways: Sequence<Way>,
    /// What stands in the pages of the slots that it owns.
    pub drafts: Sequence<Draft>,
    /// The slots that it published as copies.
    pub copies: Sequence<Copied>,
    /// The slots that it published as no page.
    pub blanks: Sequence<u32>,
    /// What it knows of the leaves of trees that it holds.
    pub known: Sequence<Known>,
    /// The headers that it has locked.
    pub heads: Sequence<Head>,
    /// The split leaves that it knows.
    pub moved: Sequence<Moved>,
    /// The split leaves whose headers it has locked.
    pub sealed: Sequence<u32>,
    /// What it knows of the interior pages of trees that it holds.
    pub inners: Sequence<Inner>,
    /// The slots that it published as leaves of trees.
    pub new_leaves: Sequence<NewLeaf>,
    /// The slots that it published as interior pages of trees.
    pub new_inners: Sequence<NewInner>,
    /// What it saw to have stood at keys.
    pub versions: Sequence<Version>,
    /// The words of the snapshot pages that it knows to be published, by their numbers from 1 on.
    pub pages: Sequence<Sequence<u64>>,
    /// What it knows of the keys that they stand for.
    pub leads: Sequence<Lead>,
    /// Of the keeper: what it stored in pages that are not published yet.
    pub fills: Sequence<Filled>,
    /// The pointers that it has shut.
    pub shuts: Sequence<Shut>,
    /// Of the keeper: the pointers that it swung away from slots, since its last call which dropped pages began.
    pub swung: Sequence<Swung>,
    /// Of the keeper: the pages that its last call which dropped pages kept.
    pub kept: Sequence<KeptPage>,
    /// Of the keeper: the counts of each call that dropped pages.
    pub drops: Sequence<Dropped>,
    /// The slot words that its last search for a usable slot loaded, in order.
    pub looked: Sequence<Glance>,
}

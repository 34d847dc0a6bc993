// What steps on trees' headers tell.
use atomic_table::Play;
use engine_pages::View;
use std::marker::{Brand, PhantomData};

/// Which page, over which keys. Each call picks them.
pub trait Treed {
    ghost use Rattle.std.specs.Prelude.{ℕ};
    ghost use Rattle.homes.specs.declared.places.Span.{Span};

    ghost slot: { ℕ };

    ghost span: { Span };
}

// No call goes by this one.
impl Treed for Brand {
    ghost slot = { 0 };

    ghost span = { record { storage = 0; low = 0; high = 0 } };
}

/// A header is loaded.
pub struct LoadingHeader<J: Treed> {
    of: PhantomData<J>,
}

impl<J: Treed> Play<(), View> for LoadingHeader<J> {
    ghost use Rattle.engine_pages.specs.Steps.{told};
    ghost use Rattle.tree_heads.specs.Headers.{LoadsHeader};

    ghost then = { told (LoadsHeader J.slot J.span) };
}

/// The header of a split leaf is loaded again.
pub struct MeetingAgain<J: Treed> {
    of: PhantomData<J>,
}

impl<J: Treed> Play<(), View> for MeetingAgain<J> {
    ghost use Rattle.engine_pages.specs.Steps.{told};
    ghost use Rattle.tree_heads.specs.Headers.{MeetsAgain};

    ghost then = { told (MeetsAgain J.slot J.span) };
}

/// The word that a header is expected to have. Each call picks it.
pub trait Expected {
    ghost use Rattle.std.specs.Prelude.{ℕ};

    ghost word: { ℕ };
}

// No call goes by this one.
impl Expected for Brand {
    ghost word = { 0 };
}

/// A header is loaded, and kept where it is that of an open leaf, as it was expected.
pub struct SeeingHeader<J: Treed, K: Expected> {
    of: PhantomData<J>,
    word: PhantomData<K>,
}

impl<J: Treed, K: Expected> Play<(), View> for SeeingHeader<J, K> {
    ghost use Rattle.engine_pages.specs.Steps.{told};
    ghost use Rattle.tree_heads.specs.Keeps.{SeesHeader};

    ghost then = { told (SeesHeader J.slot J.span K.word) };
}

/// A header is locked.
pub struct LockingHeader<J: Treed> {
    of: PhantomData<J>,
}

impl<J: Treed> Play<(), View> for LockingHeader<J> {
    ghost use Rattle.engine_pages.specs.Steps.{told};
    ghost use Rattle.tree_heads.specs.Heads.{LocksHeader};

    ghost then = { told (LocksHeader J.slot J.span) };
}

/// A header is opened as it was.
pub struct OpeningHeader<J: Treed> {
    of: PhantomData<J>,
}

impl<J: Treed> Play<(), View> for OpeningHeader<J> {
    ghost use Rattle.engine_pages.specs.Steps.{told};
    ghost use Rattle.tree_heads.specs.Heads.{OpensHeader};

    ghost then = { told (OpensHeader J.slot) };
}

/// Which word of which page. Each call picks them.
pub trait Indexed {
    ghost use Rattle.std.specs.Prelude.{ℕ};

    ghost slot: { ℕ };

    ghost index: { ℕ };
}

// No call goes by this one.
impl Indexed for Brand {
    ghost slot = { 0 };

    ghost index = { 0 };
}

/// A word that never changes is loaded.
pub struct LoadingWord<J: Indexed> {
    of: PhantomData<J>,
}

impl<J: Indexed> Play<(), View> for LoadingWord<J> {
    ghost use Rattle.engine_pages.specs.Steps.{told};
    ghost use Rattle.tree_heads.specs.Headers.{LoadsWord};

    ghost then = { told (LoadsWord J.slot J.index) };
}

/// A word that no record has is stored.
pub struct StoringSpare<J: Indexed> {
    of: PhantomData<J>,
}

impl<J: Indexed> Play<(), View> for StoringSpare<J> {
    ghost use Rattle.engine_pages.specs.Steps.{told};
    ghost use Rattle.tree_heads.specs.Heads.{StoresSpare};

    ghost then = { told (StoresSpare J.slot J.index) };
}

/// Which key. Each call picks it.
pub trait Keyed {
    ghost use Rattle.serial_model.specs.declared.key.Key.{Key};

    ghost key: { Key };
}

// No call goes by this one.
impl Keyed for Brand {
    ghost key = { record { storage = 0; key = 0 } };
}

/// A header is opened with one key more.
pub struct AddingKey<J: Treed, K: Keyed> {
    of: PhantomData<J>,
    key: PhantomData<K>,
}

impl<J: Treed, K: Keyed> Play<(), View> for AddingKey<J, K> {
    ghost use Rattle.engine_pages.specs.Steps.{told};
    ghost use Rattle.tree_heads.specs.Heads.{AddsKey};

    ghost then = { told (AddsKey J.slot J.span K.key) };
}

/// The keys of a leaf's records, and what stands at them. Each call picks them.
pub trait Leafed {
    ghost use Rattle.std.specs.Prelude.{List};
    ghost use Rattle.homes.specs.declared.places.Content.{Content};
    ghost use Rattle.serial_model.specs.declared.key.Key.{Key};

    ghost keys: { List Key };

    ghost contents: { List Content };
}

// No call goes by this one.
impl Leafed for Brand {
    ghost use Rattle.std.specs.Prelude.{[]};

    ghost keys = { [] };

    ghost contents = { [] };
}

/// Which snapshot page. Each call picks it.
pub trait Paged {
    ghost use Rattle.std.specs.Prelude.{ℕ};

    ghost page: { ℕ };
}

// No call goes by this one.
impl Paged for Brand {
    ghost page = { 0 };
}

/// An owned slot is published as a copy of an interior page.
pub struct PublishingInner<J: Treed, K: Paged> {
    of: PhantomData<J>,
    page: PhantomData<K>,
}

impl<J: Treed, K: Paged> Play<(), View> for PublishingInner<J, K> {
    ghost use Rattle.engine_pages.specs.Steps.{told};
    ghost use Rattle.tree_heads.specs.NewPages.{PublishesInner};

    ghost then = { told (PublishesInner J.slot J.span K.page) };
}

/// An owned slot is published as a leaf.
pub struct PublishingLeaf<J: Treed, K: Leafed> {
    of: PhantomData<J>,
    leaf: PhantomData<K>,
}

impl<J: Treed, K: Leafed> Play<(), View> for PublishingLeaf<J, K> {
    ghost use Rattle.engine_pages.specs.Steps.{told};
    ghost use Rattle.tree_heads.specs.NewPages.{PublishesLeaf};

    ghost then = { told (PublishesLeaf J.slot J.span K.keys K.contents) };
}

/// A full leaf that is split: its two halves as they were published, the keys that move there, and the first key of the
/// second half. Each call picks them.
pub trait Halved {
    ghost use Rattle.std.specs.Prelude.{ℕ, List};
    ghost use Rattle.serial_model.specs.declared.key.Key.{Key};
    ghost use Rattle.engine_pages.specs.declared.view.NewLeaf.{NewLeaf};

    ghost lower: { NewLeaf };

    ghost upper: { NewLeaf };

    ghost keys: { List Key };

    ghost separator: { ℕ };
}

// No call goes by this one.
impl Halved for Brand {
    ghost use Rattle.std.specs.Prelude.{[]};

    ghost lower = { record { slot = 0; span = record { storage = 0; low = 0; high = 0 }; keys = []; contents = [] } };

    ghost upper = { record { slot = 0; span = record { storage = 0; low = 0; high = 0 }; keys = []; contents = [] } };

    ghost keys = { [] };

    ghost separator = { 0 };
}

/// A full leaf is split.
pub struct SplittingLeaf<J: Treed, K: Halved> {
    of: PhantomData<J>,
    halves: PhantomData<K>,
}

impl<J: Treed, K: Halved> Play<(), View> for SplittingLeaf<J, K> {
    ghost use Rattle.engine_pages.specs.Steps.{told};
    ghost use Rattle.tree_heads.specs.Splits.{SplitsLeaf};

    ghost then = { told (SplitsLeaf J.slot J.span K.lower K.upper K.keys K.separator) };
}

/// Which leaf, and the word of its header that was seen. Each call picks them.
pub trait Compared {
    ghost use Rattle.std.specs.Prelude.{ℕ};

    ghost slot: { ℕ };

    ghost word: { ℕ };
}

// No call goes by this one.
impl Compared for Brand {
    ghost slot = { 0 };

    ghost word = { 0 };
}

/// A header is checked.
pub struct CheckingHeader<J: Compared> {
    of: PhantomData<J>,
}

impl<J: Compared> Play<(), View> for CheckingHeader<J> {
    ghost use Rattle.engine_pages.specs.Steps.{told};
    ghost use Rattle.tree_heads.specs.Checks.{ChecksHeader};

    ghost then = { told (ChecksHeader J.slot J.word) };
}

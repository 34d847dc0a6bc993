//! The machines of commits and pages shown by words that threads share: what stands in the words, and what each seat
//! knows.
//!
//! Promises: between any two steps of any threads, words and views show a sound state of both machines (`Shows`).
//! Records stand at places of the pages in slots; each slot's word, pointer and resident snapshot page shows what the
//! machine of pages has of it, and a view what its seat holds, owns, published and knows of pages.
//! Terms: *pass*, a seat of the table: a token of no bytes that a thread steps with; *view*, what its thread knows,
//! which no byte of a running program has; *way*, a slot that is held with the keys of its page; *draft*, the words of
//! a page that a pass owns and fills; *copy*, a slot that a pass published and led nothing to; *name*, what the machine
//! calls a snapshot page that stands for certain keys; *start*, the pages of a snapshot and what else an engine begins
//! with.
//! Steps, each one atomic step on one word: a slot is held (`enter`) and held no more (`leave`), its word is looked at
//! (`look`), it is given (`take`), filled (`fill`), published (`publish_copy`, `publish_blank`), given up (`retire`). A
//! pointer is loaded, and what it leads to is known (`follow`); so is a word of a published snapshot page
//! (`load_resident`). A published page becomes a page of the machine in one step: its layout and all its records.
//! Layout: specs/Layout.antt, which word is which; specs/Indexes.antt, which storage is which; specs/Pages.antt, how
//! pages of slots are laid out; specs/Resident.antt, what snapshot pages say as words; specs/Words.antt, what the
//! words show; specs/Views.antt, one view by itself; specs/Records.antt, where a pass finds the record of a key;
//! specs/Touches.antt, who took locks of which keys; specs/Rule.antt, the rule; specs/Stays.antt, what a step leaves
//! of trees; specs/Steps.antt, Slots, Pointers and Loads, what steps tell; specs/Times.antt, what a load of the clock
//! does; specs/BeginningLaws.antt, that the rule holds as an engine begins. In proofs/ `Turns` makes the rule after a
//! step of what the step changed (`Stride`), `SlotSteps` a stride of an act on a slot's word, `CommitSteps` one of an
//! act on commits, `Looks` one of a load, `Copying` one of a slot that is published; `Facing` has what steps leave of
//! who is in the way, `Dealing` what an own step does, `IndexLaws` the storages by their ids.
//! Design: docs/PAGES.md and docs/COMMIT.md.
#![tactic(auto)]

mod engine;
mod law;
mod laws;
mod layout;
mod loading;
mod pointers;
mod slots;
mod start;
mod storages;
mod view;

pub use engine::{Engine, Pass};
pub use law::Law;
pub use layout::Layout;
pub use loading::load_resident;
pub use pointers::follow;
pub use slots::{enter, fill, leave, look, publish_blank, publish_copy, retire, take};
pub use start::Start;
pub use view::{
    Copied, Draft, Dropped, Filled, Glance, Head, Heard, Inner, KeptPage, KeptWhy, Known, Lead,
    Loaded, Met, Moved, NewInner, NewLeaf, Read, RefusalCause, Role, SetName, Shut, Swung, Took,
    Touch, Version, View, Way,
};

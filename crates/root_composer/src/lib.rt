//! From the last entries to the pages of a new snapshot.
//!
//! Promises: [`compose`] gives the pages to append, whose catalogue has the overlay of the old one's
//! content and the run (`IsComposed` of specs/Composition.antt: `content`); a page in whose range no entry
//! lies keeps its number, and the range of every old pointer has one page, or none where the pointer was 0
//! and no entry lies there (`each`); the pages made are exactly those with entries, each after the pages
//! that it names, storages in order of id, the catalogue last (`order`); and each is a page of its kind for
//! its range (`stands`). What stands in place of a tree's leaf has the shape that its records ask for: a
//! leaf, or a page over as many as `cut_of` says (`shape`, specs/Shape.antt).
//!
//! [`ComposeFault::Deep`] comes exactly where pages would stand more than 32 deep (`deep`: all but this
//! would be a composed snapshot), and else [`ComposeFault::Limit`] exactly where they are more than there
//! is room for (`limit`, `within`). Nothing is written.
//!
//! A law for those who go on from a composition: a storage without entries keeps its root ([`root_stays`]).
//!
//! The facts are told of the pages (specs/Composed.antt); the recursion that makes them
//! (specs/Composer.antt) is shown to have them, for arrays and trees at once.
//!
//! Terms: *row*, a record of a tree's leaf; *run of rows*, the rows of one child, of those that are cut.
//! Design: docs/CHECKPOINT.md.
#![tactic(auto)]

mod array;
mod build;
mod composing;
mod fault;
mod last;
mod laws;
mod part;
mod range;
mod row;
mod storages;
mod tree;
mod words;

pub use composing::{NewPages, compose};
pub use fault::ComposeFault;
pub use last::Last;
pub use laws::root_stays;

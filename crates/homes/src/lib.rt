//! Where the records of keys stand, and the pointers that lead to them.
//!
//! Promises: `Span::has` and `Home::is` are exactly the definitions of `specs/Homes.antt`.
//! Terms: *home*, the place that holds a key's current record; *move*, a key's new home; *spot*, a place in a
//! slot's page; *span*, keys of a storage from a low one to a high one.
//! The machines of commits and of pages both speak of these: the pages say where keys go, the commits what stands
//! there.
#![tactic(auto)]

mod places;

pub use places::{At, Content, Holder, Home, Move, Span, Spot};

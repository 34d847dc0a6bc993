//! Steps of the maintenance thread on snapshot pages that are not published yet.
//!
//! Promises: each step keeps the rule of engine_pages (`Shows`). A page above those that are published is the keeper's
//! to fill, with the words that stand in it (`claim_page`), and stays so until the count rises: nobody else stores
//! there (`fill_page`). The count rises over filled pages alone, where each place that gets a name stands with all
//! below it, and those below have names before it (`extend`): so no name that there was leads to another page. What
//! the keeper has claimed nobody else has published: so where all pages behind those that it knows are its own to fill
//! (`claim_rest`, once, as an engine begins), it knows all that are published. Those of a store are filled and
//! published in one call (`publish_pages`).
//! Terms: *snapshot page*, a page of 64 words behind those of the slots, by its number; *count*, how many of them are
//! published; *name*, what the machine of pages calls a page that stands for certain keys; *place*, those keys with the
//! page's number.
//! Layout: specs/Fills.antt and Extends, what the steps ask and tell; specs/Publishes.antt, the same of the call that
//! makes them all. In proofs/ `Claims` and `PageFills` have the first two steps, `Snaps` the acts of the machine,
//! `LongerPages` what stays of pages and names, `PlacesRight` that pages that stand are right, `NewPages` what is
//! published then, `NamesShown` what slots show, and `Extends` the step; `PagesFilled` has pages that are filled one
//! after another, and `PagesPublished` the names of a snapshot's pages.
//! Design: docs/PAGES.md.
#![tactic(auto)]

mod extending;
mod filling;
mod law;
mod laws;
mod publishing;

pub use extending::extend;
pub use filling::{claim_page, fill_page, look_at_pages};
pub use law::Publishing;
pub use publishing::{claim_rest, publish_pages};

// Room for what comes of a line.
ghost use Rattle.std.specs.Prelude.{◌≡◌, []};

use crate::LineReplies;
use serial_model::{Changes, Commit, Number};

/// Room for what comes of one line after another, made once. After a commit it has the line's replies, and the number
/// and the changes of the commit; after all else it has nothing that is told.
#[derive(Drop)]
pub struct LineRoom {
    pub replies: LineReplies,
    pub commit: Commit,
}

impl LineRoom {
    pub fn new() -> Self
        ensures replies { result.replies ≡ [] }
        ensures changes { result.commit.changes ≡ [] }
    {
        LineRoom {
            replies: LineReplies::new(),
            commit: Commit {
                number: Number { epoch: 0, draw: 0 },
                changes: Changes::new(),
            },
        }
    }
}

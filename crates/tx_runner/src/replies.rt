// The replies of a line.
ghost use Rattle.std.specs.Prelude.{◌≡◌, ◌+◌, ◌*◌, ◌<◌, ◌≤◌, [], ◌∷◌, ◌++◌, length};
ghost use Rattle.serial_model.specs.ReplyWords.{replies_words, rows_words};
ghost use Rattle.serial_model.specs.declared.reply.Reply.{Reply};

use serial_model::{LentReplies, Rows};
use std::marker::Model;

/// Each of the 16 operations of a line replies a value at most, which has one word or two, or 16 rows of two words each
/// behind a mark and their count.
const CAPACITY: usize = 544;

/// Words in room that is made once: what was let go isn't blanked.
#[derive(Drop)]
struct Words {
    /// The first `count` of them are in the list.
    items: [u64; CAPACITY],
    count: usize,
}

impl Model for Words {
    ghost use Rattle.std.specs.Prelude.{ℕ, List, ◌≡◌, ◌≤◌, length, take};

    ghost Value = { List ℕ };

    ghost view = { λ w. take w.count w.items };

    ghost invariant = { λ w. (w.count ≤ 544) × (length w.items ≡ 544) };
}

impl Words {
    fn new() -> Self
        ensures { result ≡ [] }
    {
        Words {
            items: [0; CAPACITY],
            count: 0,
        }
    }

    fn push(&mut self, word: u64)
        requires { length self.old < 544 }
        ensures { self.new ≡ self.old ++ word ∷ [] }
    {
        let count = self.count;
        self.items[count] = word;
        self.count = count + 1;
    }

    fn as_slice(&self) -> &[u64]
        ensures { result.now ≡ self.now }
    {
        &self.items[..self.count]
    }

    fn clear(&mut self)
        ensures { self.new ≡ [] }
    {
        self.count = 0;
    }
}

/// The replies of a line, 16 at most, which contracts see as the list of them. They lie in words, as `serial_model` has
/// them, and in room that is made once.
#[derive(Drop)]
pub struct LineReplies {
    words: Words,
}

impl Model for LineReplies {
    ghost use Rattle.std.specs.Prelude.{List};
    ghost use Rattle.serial_model.specs.declared.reply.Reply.{Reply};

    ghost Value = { List Reply };

    ghost use Rattle.serial_model.specs.ReplyWords.{replies_of};
    ghost use Rattle.tx_runner.specs.Lines.{AreFewWords};

    ghost view = { λ r. replies_of r.words };

    ghost invariant = { λ r. AreFewWords r.words };
}

impl LineReplies {
    pub fn new() -> Self
        ensures { result ≡ [] }
    {
        LineReplies {
            words: Words::new(),
        }
    }

    pub fn clear(&mut self)
        ensures { self.new ≡ [] }
    {
        self.words.clear();
    }

    pub fn push_value(&mut self, value: u64)
        requires { length self.old < 16 }
        ensures { self.new ≡ self.old ++ Reply.Value value ∷ [] }
    {
        if value < u64::MAX - 2 {
            self.words.push(value + 3);
        } else {
            self.words.push(0);
            self.words.push(value);
        }
    }

    /// Of a key that isn't in its tree.
    pub fn push_absent(&mut self)
        requires { length self.old < 16 }
        ensures { self.new ≡ self.old ++ Reply.Absent ∷ [] }
    {
        self.words.push(1);
    }

    /// Of a scan.
    pub fn push_rows(&mut self, rows: &Rows)
        requires { length self.old < 16 }
        ensures { self.new ≡ self.old ++ Reply.Rows rows.now ∷ [] }
    {
        let pairs = rows.as_slice();
        self.words.push(2);
        self.words.push(pairs.len() as u64);
        push_pairs(&mut self.words, pairs);
    }

    /// The words in which they lie.
    pub fn words(&self) -> &[u64]
        ensures { result.now ≡ replies_words self.now }
    {
        self.words.as_slice()
    }

    /// To read them one after another.
    pub fn lent(&self) -> LentReplies<'_>
        ensures { result ≡ self.now }
    {
        LentReplies::new(self.words())
    }
}

// Puts the key and the value of each row behind the words.
fn push_pairs(words: &mut Words, pairs: &[(u64, u64)])
    requires { length words.old + 2 * length pairs.now ≤ 544 }
    ensures { words.new ≡ words.old ++ rows_words pairs.now }
{
    for index in 0..pairs.len() {
        let (key, value) = pairs[index];
        words.push(key);
        words.push(value);
    }
}

// Replies that are read where they lie.
ghost use Rattle.std.specs.Prelude.{◌≡◌, ◌≤◌, [], ◌∷◌, MatchOption};
ghost use Rattle.serial_model.specs.ReplyWords.{AreReplyWords, AreRowWords, Begins, replies_of, rows_in};
ghost use Rattle.serial_model.specs.Lent.{reply_lent};

use std::marker::Model;

/// Replies in words that are lent, which contracts see as the list of them.
#[derive(Drop)]
pub struct LentReplies<'a> {
    words: &'a [u64],
}

impl<'a> Model for LentReplies<'a> {
    ghost use Rattle.std.specs.Prelude.{List};
    ghost use Rattle.serial_model.specs.declared.reply.Reply.{Reply};

    ghost Value = { List Reply };

    ghost use Rattle.serial_model.specs.ReplyWords.{replies_of, AreReplyWords};

    ghost view = { λ r. replies_of r.words.now };

    ghost invariant = { λ r. AreReplyWords r.words.now };
}

/// Rows in words that are lent, which contracts see as the list of them.
#[derive(Drop)]
pub struct LentRows<'a> {
    words: &'a [u64],
}

impl<'a> Model for LentRows<'a> {
    ghost use Rattle.std.specs.Prelude.{ℕ, List};

    ghost Value = { List (ℕ × ℕ) };

    ghost use Rattle.serial_model.specs.ReplyWords.{rows_in, AreRowWords};

    ghost view = { λ r. rows_in r.words.now };

    ghost invariant = { λ r. AreRowWords r.words.now };
}

/// A reply as it is read.
#[derive(Drop)]
pub enum LentReply<'a> {
    Value(u64),
    Absent,
    Rows(LentRows<'a>),
}

impl<'a> LentReplies<'a> {
    /// The replies that lie in these words.
    pub fn new(words: &'a [u64]) -> Self
        requires { AreReplyWords words.now }
        ensures { result ≡ replies_of words.now }
    {
        LentReplies { words }
    }

    /// The first reply, and those behind it.
    pub fn split_first(&self) -> Option<(LentReply<'a>, LentReplies<'a>)>
        ensures { MatchOption result (self.now ≡ []) (λ p. self.now ≡ reply_lent p.0 ∷ p.1) }
    {
        let (reply, words) = first_reply(self.words)?;
        Some((reply, LentReplies { words }))
    }
}

/// The reply at the front, and the words behind it.
fn first_reply(words: &[u64]) -> Option<(LentReply<'_>, &[u64])>
    requires { AreReplyWords words.now }
    ensures { MatchOption result (words.now ≡ []) (λ p. Begins words.now (reply_lent p.0) p.1.now) }
{
    let (mark, rest) = words.split_first()?;
    if *mark > 2 {
        Some((LentReply::Value(*mark - 3), rest))
    } else {
        Some(marked_reply(*mark, rest))
    }
}

/// The reply behind a mark, and the words behind it.
fn marked_reply(mark: u64, words: &[u64]) -> (LentReply<'_>, &[u64])
    requires few { mark ≤ 2 }
    requires words { AreReplyWords (mark ∷ words.now) }
    ensures { Begins (mark ∷ words.now) (reply_lent result.0) result.1.now }
{
    if mark == 1 {
        return (LentReply::Absent, words);
    }
    if mark == 0 {
        return (LentReply::Value(words[0]), &words[1..]);
    }
    rows_behind(words)
}

/// The rows behind their count, and the words behind them.
fn rows_behind(words: &[u64]) -> (LentReply<'_>, &[u64])
    requires { AreReplyWords (2 ∷ words.now) }
    ensures { Begins (2 ∷ words.now) (reply_lent result.0) result.1.now }
{
    let count = words[0] as usize;
    let (rows, rest) = words[1..].split_at(2 * count);
    (LentReply::Rows(LentRows { words: rows }), rest)
}

impl<'a> LentRows<'a> {
    /// The first row, and those behind it.
    pub fn split_first(&self) -> Option<((u64, u64), LentRows<'a>)>
        ensures { MatchOption result (self.now ≡ []) (λ p. self.now ≡ p.0 ∷ p.1) }
    {
        if self.words.is_empty() {
            return None;
        }
        Some((
            (self.words[0], self.words[1]),
            LentRows {
                words: &self.words[2..],
            },
        ))
    }
}

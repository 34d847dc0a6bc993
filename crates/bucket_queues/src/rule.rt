// The rule of a queue of buckets.
ghost use Rattle.std.specs.Prelude.{◌≡◌, ◌+◌, ◌-◌, [], ◌∷◌, ◌++◌};
ghost use Rattle.std.specs.List.Sorted.{IsPermutation};
ghost use Rattle.bucket_queues.specs.Balance.{all_parts, hand, IsBalanced};

use crossbeam_queue::protocol::{Join, Lesson, Outcome, Protocol, Split};
use crossbeam_queue::{Pass, RuledArrayQueue};
use std::collections::LinkedList;
use wire_form::Bucket;

/// What a pass has put and taken, and its parts of the right to know the whole. No value of it is made.
pub struct Hand {
    pub parts: u64,
    pub put: LinkedList<Bucket>,
    pub taken: LinkedList<Bucket>,
}

/// What went in is what came out and what the queue holds, each bucket once.
pub struct BucketRule;

impl Protocol<Bucket, Hand> for BucketRule {
    ghost use Rattle.std.specs.Prelude.{[]};
    ghost use Rattle.bucket_queues.specs.Balance.{all_parts, hand, IsBalanced};

    ghost holds = { IsBalanced };

    ghost first = { hand all_parts [] [] };
}

/// One part goes to a pass of its own.
pub struct PartOff;

impl Split<Hand> for PartOff {
    ghost use Rattle.std.specs.Prelude.{◌-◌, []};
    ghost use Rattle.bucket_queues.specs.Balance.{hand};

    ghost left = { λ v. hand (v.parts - 1) v.put v.taken };

    ghost right = { λ v. hand 1 [] [] };
}

/// And comes back, with what its pass has put and taken.
pub struct PartsMeet;

impl Join<Hand> for PartsMeet {
    ghost use Rattle.std.specs.Prelude.{◌+◌, ◌++◌, []};
    ghost use Rattle.bucket_queues.specs.Balance.{hand};

    ghost both = { λ v w. hand (v.parts + w.parts) (v.put ++ w.put) (v.taken ++ w.taken) };

    ghost spent = { hand 0 [] [] };
}

/// A bucket was put in.
pub struct Puts;

impl Outcome<Bucket, Hand> for Puts {
    ghost then = { λ v x w. w ≡ hand v.parts (v.put ++ x ∷ []) v.taken };
}

/// A full queue tells nothing but that it was full.
impl Lesson<Bucket, Hand> for Puts {
    ghost use Rattle.std.specs.Prelude.{⊤};

    ghost fact = { λ v items. ⊤ };
}

/// A bucket was taken; who has all parts and finds the queue empty knows that all that was put was taken.
pub struct Takes;

impl Outcome<Bucket, Hand> for Takes {
    ghost then = { λ v x w. w ≡ hand v.parts v.put (v.taken ++ x ∷ []) };
}

impl Lesson<Bucket, Hand> for Takes {
    ghost fact = { λ v items. v.parts ≡ all_parts → IsPermutation v.put (v.taken ++ items) };
}

/// A queue of buckets under the rule.
pub type BucketQueue = RuledArrayQueue<Bucket, Hand, BucketRule>;

/// What one caller knows of it.
pub type BucketPass = Pass<Bucket, Hand>;

// Worked transactions, one after another, with the answers by hand.
ghost use Rattle.std.specs.Prelude.{◌≡◌, IsTrue};
ghost use Rattle.std.specs.List.{All};
ghost use Rattle.serial_model.specs.Keys.{fits};

use serial_model::{
    Change, Changes, Commit, Decl, Key, LentReplies, LentReply, Memory, Number, Op, Plain, Replies,
    Reply, Rows, State, Verdict, fits, run_one,
};
use std::alloc::Global;
use std::process::Abort;
use std::test::Fail;

const MOST: u64 = u64::MAX;

/// An operation as a table writes it: with a storage, a key and a value, or with the first and the last key.
#[derive(Clone, Copy)]
enum Do {
    Read(u8, u64),
    Write(u8, u64, u64),
    Remove(u8, u64),
    Add(u8, u64, u64),
    Take(u8, u64, u64),
    Scan(u8, u64, u64),
}

/// A reply as a table writes it.
#[derive(Clone, Copy)]
enum Want {
    Value(u64),
    Absent,
    Rows(&'static [(u64, u64)]),
}

/// The operations of a transaction, and what it answers.
type Row = (&'static [Do], Verdict, &'static [Want]);

fn key(storage: u8, key: u64) -> Key {
    Key { storage, key }
}

fn op(step: Do) -> Op {
    match step {
        Do::Read(storage, at) => Op::Read(key(storage, at)),
        Do::Write(storage, at, value) => Op::Write(key(storage, at), value),
        Do::Remove(storage, at) => Op::Remove(key(storage, at)),
        Do::Add(storage, at, value) => Op::Add(key(storage, at), value),
        Do::Take(storage, at, value) => Op::Take(key(storage, at), value),
        Do::Scan(storage, low, high) => Op::Scan { storage, low, high },
    }
}

fn ops_of(alloc: Global, steps: &[Do]) -> Result<Vec<Op>, Memory> {
    let mut ops = Vec::new(alloc);
    for step in steps {
        ops.push(op(*step))?;
    }
    Ok(ops)
}

/// The first 16 pairs.
fn rows_of(pairs: &[(u64, u64)]) -> Rows {
    let mut rows = Rows::new();
    for (key, value) in pairs {
        if rows.as_slice().len() < 16 {
            rows.push(*key, *value);
        }
    }
    rows
}

/// The replies as a table writes them.
fn wanted(alloc: Global, wants: &[Want]) -> Result<Replies, Memory> {
    let mut replies = Replies::new(alloc);
    for want in wants {
        match *want {
            Want::Value(value) => replies.push(Reply::Value(value))?,
            Want::Absent => replies.push(Reply::Absent)?,
            Want::Rows(pairs) => replies.push(Reply::Rows(rows_of(pairs)))?,
        }
    }
    Ok(replies)
}

fn are_wanted(alloc: Global, replies: &Replies, wants: &[Want]) -> Result<bool, Memory> {
    let wants = wanted(alloc, wants)?;
    Ok(*replies == wants)
}

fn all_fit(decls: &[Decl], ops: &[Op]) -> bool
    ensures { IsTrue result → All (λ op. IsTrue (fits decls.now op)) ops.now }
{
    ops.iter().all(|op| fits(decls, op))
}

fn try_once(alloc: Global, plain: &mut Plain, ops: &[Op]) -> Result<(Verdict, Replies), Memory>
    requires { All (λ op. IsTrue (fits plain.old.decls op)) ops.now }
    ensures { plain.new.decls ≡ plain.old.decls }
{
    run_one(alloc, plain, ops)
}

/// What the operations answer, which fit. A try that wants memory leaves no trace, so it is made again.
fn answer(alloc: Global, plain: &mut Plain, ops: &[Op]) -> Result<(Verdict, Replies), Memory>
    requires { All (λ op. IsTrue (fits plain.old.decls op)) ops.now }
{
    match try_once(alloc, plain, ops) {
        Ok(answer) => Ok(answer),
        Err(Memory) => try_once(alloc, plain, ops),
    }
}

/// Runs the operations, and compares the answers.
fn run_ops(
    rt: &impl Abort,
    alloc: Global,
    plain: &mut Plain,
    ops: &[Op],
    verdict: Verdict,
    wants: &[Want],
) -> Result<(), Memory> {
    assert!(rt; all_fit(plain.decls.as_slice(), ops));
    let (ended, replies) = answer(alloc, plain, ops)?;
    let same = are_wanted(alloc, &replies, wants)?;
    assert!(rt; (ended == verdict) & same);
    Ok(())
}

fn run(
    rt: &impl Abort,
    alloc: Global,
    plain: &mut Plain,
    steps: &[Do],
    verdict: Verdict,
    wants: &[Want],
) -> Result<(), Memory> {
    let ops = ops_of(alloc, steps)?;
    run_ops(rt, alloc, plain, &ops, verdict, wants)
}

fn follows(rt: &impl Abort, alloc: Global, plain: &mut Plain, rows: &[Row]) -> Result<(), Memory> {
    for (steps, verdict, wants) in rows {
        run(rt, alloc, plain, steps, *verdict, wants)?;
    }
    Ok(())
}

/// Runs the rows one after another, with no value anywhere at first.
fn plays(rt: &impl Abort, alloc: Global, decls: &[Decl], rows: &[Row]) -> Result<(), Memory> {
    let mut plain = Plain::new(alloc, decls)?;
    follows(rt, alloc, &mut plain, rows)
}

const ON_AN_ARRAY: [Row; 11] = [
    (
        &[Do::Write(1, 2, 7), Do::Read(1, 2)],
        Verdict::Done,
        &[Want::Value(7)],
    ),
    (&[Do::Read(1, 0)], Verdict::Done, &[Want::Value(0)]),
    (&[Do::Take(1, 0, 5), Do::Read(1, 0)], Verdict::Short, &[]),
    (
        &[
            Do::Read(1, 2),
            Do::Write(1, 2, 8),
            Do::Take(1, 2, 9),
            Do::Read(1, 2),
        ],
        Verdict::Short,
        &[Want::Value(7)],
    ),
    (&[Do::Read(1, 2)], Verdict::Done, &[Want::Value(7)]),
    (
        &[
            Do::Write(1, 0, MOST),
            Do::Read(1, 0),
            Do::Add(1, 0, 1),
            Do::Read(1, 0),
        ],
        Verdict::Over,
        &[Want::Value(MOST)],
    ),
    (&[Do::Read(1, 0)], Verdict::Done, &[Want::Value(0)]),
    (
        &[Do::Add(1, 3, MOST), Do::Take(1, 3, 1), Do::Read(1, 3)],
        Verdict::Done,
        &[Want::Value(MOST - 1)],
    ),
    (
        &[Do::Add(1, 3, 1), Do::Read(1, 3)],
        Verdict::Done,
        &[Want::Value(MOST)],
    ),
    (
        &[Do::Take(1, 3, MOST), Do::Read(1, 3)],
        Verdict::Done,
        &[Want::Value(0)],
    ),
    (&[], Verdict::Done, &[]),
];

#[test]
fn runs_on_an_array(rt: HostRuntime) -> Result<(), Fail> {
    plays(
        &rt,
        rt.alloc(),
        &[Decl::Array { id: 1, size: 4 }],
        &ON_AN_ARRAY,
    )?;
    Ok(())
}

const ON_A_TREE: [Row; 13] = [
    (&[Do::Scan(2, 0, 9)], Verdict::Done, &[Want::Rows(&[])]),
    (
        &[Do::Write(2, 5, 50), Do::Write(2, 1, 10), Do::Scan(2, 0, 9)],
        Verdict::Done,
        &[Want::Rows(&[(1, 10), (5, 50)])],
    ),
    (&[Do::Read(2, 3)], Verdict::Done, &[Want::Absent]),
    (&[Do::Scan(2, 9, 0)], Verdict::Done, &[Want::Rows(&[])]),
    (
        &[Do::Scan(2, 2, 5), Do::Scan(2, 1, 4)],
        Verdict::Done,
        &[Want::Rows(&[(5, 50)]), Want::Rows(&[(1, 10)])],
    ),
    (
        &[Do::Remove(2, 1), Do::Scan(2, 0, 9), Do::Take(2, 1, 1)],
        Verdict::Short,
        &[Want::Rows(&[(5, 50)])],
    ),
    (
        &[
            Do::Remove(2, 5),
            Do::Write(2, 1, 11),
            Do::Scan(2, 0, 9),
            Do::Write(2, 5, 51),
            Do::Scan(2, 0, 9),
        ],
        Verdict::Done,
        &[Want::Rows(&[(1, 11)]), Want::Rows(&[(1, 11), (5, 51)])],
    ),
    (
        &[
            Do::Remove(2, 1),
            Do::Remove(2, 1),
            Do::Remove(2, 5),
            Do::Remove(2, 7),
        ],
        Verdict::Done,
        &[],
    ),
    (&[Do::Scan(2, 0, MOST)], Verdict::Done, &[Want::Rows(&[])]),
    (
        &[
            Do::Write(2, MOST, 1),
            Do::Read(2, MOST),
            Do::Remove(2, MOST),
            Do::Read(2, MOST),
        ],
        Verdict::Done,
        &[Want::Value(1), Want::Absent],
    ),
    (
        &[Do::Add(2, 7, 3), Do::Take(2, 7, 1), Do::Read(2, 7)],
        Verdict::Done,
        &[Want::Value(2)],
    ),
    (
        &[Do::Remove(2, 7), Do::Add(2, 7, 5), Do::Add(2, 7, MOST)],
        Verdict::Over,
        &[],
    ),
    (
        &[Do::Read(2, 7), Do::Write(1, 3, 4), Do::Scan(2, 0, MOST)],
        Verdict::Done,
        &[Want::Value(2), Want::Rows(&[(7, 2)])],
    ),
];

#[test]
fn runs_on_a_tree(rt: HostRuntime) -> Result<(), Fail> {
    let decls = [Decl::Array { id: 1, size: 4 }, Decl::Tree { id: 2 }];
    plays(&rt, rt.alloc(), &decls, &ON_A_TREE)?;
    Ok(())
}

/// What 17 transactions write, one pair each.
static WRITTEN: [(u64, u64); 17] = [
    (1, 100),
    (2, 100),
    (3, 100),
    (4, 100),
    (5, 100),
    (6, 100),
    (7, 100),
    (8, 100),
    (9, 100),
    (10, 100),
    (11, 100),
    (12, 100),
    (13, 100),
    (14, 100),
    (15, 100),
    (16, 100),
    (17, 100),
];

/// Writes them, and scans them all, and again without the first one.
fn writes_and_scans(rt: &impl Abort, alloc: Global, plain: &mut Plain) -> Result<(), Memory> {
    for (at, value) in &WRITTEN {
        let steps = [Do::Write(0, *at, *value)];
        run(rt, alloc, plain, &steps, Verdict::Done, &[])?;
    }
    let steps = [Do::Scan(0, 0, 99), Do::Remove(0, 1), Do::Scan(0, 0, 99)];
    let wants = [Want::Rows(&WRITTEN[..16]), Want::Rows(&WRITTEN[1..])];
    run(rt, alloc, plain, &steps, Verdict::Done, &wants)
}

#[test]
fn scans_give_sixteen_pairs(rt: HostRuntime) -> Result<(), Fail> {
    let mut plain = Plain::new(rt.alloc(), &[Decl::Tree { id: 0 }])?;
    writes_and_scans(&rt, rt.alloc(), &mut plain)?;
    Ok(())
}

/// A call of a state: a storage, a key, and what is put there.
#[derive(Clone, Copy)]
enum Call {
    Insert(u8, u64, u64),
    Get(u8, u64),
    Remove(u8, u64),
}

fn told(state: &mut State, call: Call) -> Result<Option<u64>, Memory> {
    match call {
        Call::Insert(storage, at, value) => state.insert(key(storage, at), value),
        Call::Get(storage, at) => Ok(state.get(key(storage, at))),
        Call::Remove(storage, at) => Ok(state.remove(key(storage, at))),
    }
}

const CALLS: [(Call, Option<u64>); 7] = [
    (Call::Insert(2, 5, 50), None),
    (Call::Insert(2, 1, 10), None),
    (Call::Insert(2, 5, 51), Some(50)),
    (Call::Insert(1, 9, 90), None),
    (Call::Get(2, 5), Some(51)),
    (Call::Remove(2, 1), Some(10)),
    (Call::Remove(2, 1), None),
];

fn tells(rt: &impl Abort, state: &mut State) -> Result<(), Memory> {
    for (call, want) in &CALLS {
        let told = told(state, *call)?;
        assert_eq!(rt; told, *want);
    }
    Ok(())
}

/// What is left behind the calls, in order.
fn is_left(rt: &impl Abort, state: &State) {
    assert!(rt; state.len() == 2);
    let mut pairs = state.iter();
    assert!(rt; pairs.next() == Some((&key(1, 9), &90)));
    assert!(rt; pairs.next() == Some((&key(2, 5), &51)));
    assert!(rt; pairs.next() == None);
}

#[test]
fn a_state_is_a_map(rt: HostRuntime) -> Result<(), Fail> {
    let mut state = State::new(rt.alloc());
    assert!(rt; state.is_empty());
    tells(&rt, &mut state)?;
    is_left(&rt, &state);
    Ok(())
}

/// The value that is read first, and the replies behind it.
fn value_first<'a>(replies: &LentReplies<'a>) -> Option<(u64, LentReplies<'a>)> {
    match replies.split_first() {
        Some((LentReply::Value(value), rest)) => Some((value, rest)),
        _ => None,
    }
}

/// The second row of the reply that is read first.
fn second_row(replies: &LentReplies<'_>) -> Option<(u64, u64)> {
    match replies.split_first() {
        Some((LentReply::Rows(rows), _)) => {
            let (_, rest) = rows.split_first()?;
            let (row, _) = rest.split_first()?;
            Some(row)
        }
        _ => None,
    }
}

/// The four values that are read first, and the second row behind them.
fn values_and_row(replies: &LentReplies<'_>) -> Option<([u64; 4], (u64, u64))> {
    let (zero, rest) = value_first(replies)?;
    let (small, rest) = value_first(&rest)?;
    let (great, rest) = value_first(&rest)?;
    let (most, rest) = value_first(&rest)?;
    Some(([zero, small, great, most], second_row(&rest)?))
}

/// Four values, and two rows.
fn push_replies(replies: &mut Replies) -> Result<(), Memory> {
    for value in [0, MOST - 3, MOST - 2, MOST] {
        replies.push_value(value)?;
    }
    replies.push_rows(&rows_of(&[(1, 10), (2, MOST)]))
}

#[test]
fn replies_are_read_where_they_lie(rt: HostRuntime) -> Result<(), Fail> {
    let mut replies = Replies::new(rt.alloc());
    push_replies(&mut replies)?;
    assert_eq!(rt;
        replies.words(),
        [3, MOST, 0, MOST - 2, 0, MOST, 2, 2, 1, 10, 2, MOST].as_slice()
    );
    assert!(rt; replies.len() == 5);
    let (values, row) = values_and_row(&replies.lent()).ok_or("four values and rows")?;
    assert!(rt; values == [0, MOST - 3, MOST - 2, MOST]);
    assert!(rt; row == (2, MOST));
    Ok(())
}

fn commit_with(change: Option<Change>) -> Commit {
    let mut changes = Changes::new();
    if let Some(change) = change {
        changes.push(change);
    }
    Commit {
        number: Number::default(),
        changes,
    }
}

fn commits_compare(rt: &impl Abort) {
    let change = Change {
        key: key(2, 5),
        value: Some(50),
    };
    let commit = commit_with(Some(change));
    assert!(rt; commit != commit_with(None));
    assert!(rt; commit == commit_with(Some(change)));
    assert!(rt; commit.changes.as_slice() == [change].as_slice());
}

/// Two replies of rows, which differ in a value.
fn replies_compare(
    rt: &impl Abort,
    replies: &mut Replies,
    others: &mut Replies,
) -> Result<(), Memory> {
    let (rows, more) = (rows_of(&[(5, 50)]), rows_of(&[(5, 51)]));
    assert!(rt; rows != more);
    replies.push(Reply::Rows(rows))?;
    others.push(Reply::Rows(more))?;
    assert!(rt; *replies != *others);
    assert!(rt; *replies == *replies);
    Ok(())
}

#[test]
fn changes_and_replies_compare_as_lists(rt: HostRuntime) -> Result<(), Fail> {
    commits_compare(&rt);
    let mut replies = Replies::new(rt.alloc());
    let mut others = Replies::new(rt.alloc());
    replies_compare(&rt, &mut replies, &mut others)?;
    Ok(())
}

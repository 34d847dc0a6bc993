// Room for what comes of the workers' lines of a round, made before the first worker is seated.
ghost use Rattle.std.specs.Prelude.{◌≡◌, ◌==◌, ◌*◌, ◌+◌, ◌<◌, ◌≤◌, ℕ, IfOk, IfSome, List, cond, get_or, length};
ghost use Rattle.std.specs.Prelude.{vec_len};
ghost use Rattle.serial_model.specs.declared.decl.Decl.{Decl};
ghost use Rattle.tx_script.specs.Run.{CanRun};
ghost use Rattle.shared_rounds.specs.Rooms.{AreCounts, AreRooms, AreSpaces, IsRoomOf, counts_for, spaces_for};

use outside::Disk;
use serial_model::{Memory, WORKERS};
use std::alloc::Global;
use tx_script::{OutcomeRoom, Outcomes, Round};
use worker_cells::Cell;

/// All memory that the workers' lines of a round take.
#[derive(Drop)]
pub struct Rooms<D> {
    /// How many lines each worker has.
    pub(crate) counts: [u32; WORKERS],
    /// How many words the replies of each worker's lines have at most.
    pub(crate) spaces: [u32; WORKERS],
    /// For a cell of each worker; none is made yet.
    pub(crate) cells: Vec<Cell<D>>,
    /// For the outcomes of each worker's lines, worker 0's first.
    pub(crate) outcomes: Vec<OutcomeRoom>,
    /// For what is told of each worker's lines.
    pub(crate) told: Vec<Outcomes>,
}

/// Room for the workers' lines of this round, over log files of this kind of disk. Where it can't be had it is refused
/// whole.
pub fn make_rooms<D: Disk + Drop>(alloc: Global, round: &Round<'_>) -> Result<Rooms<D>, Memory>
    requires { (decls : List Decl) × CanRun decls round.now }
    ensures { IfOk result (λ rooms. IsRoomOf round.now rooms) }
{
    let counts = count_lines(round);
    let spaces = count_words(round);
    let outcomes = make_outcome_rooms(alloc, &counts, &spaces)?;
    let cells = Vec::with_capacity(alloc, WORKERS)?;
    let told = Vec::with_capacity(alloc, WORKERS)?;
    Ok(Rooms {
        counts,
        spaces,
        cells,
        outcomes,
        told,
    })
}

/// How many lines of the round each worker has.
pub fn count_lines(round: &Round<'_>) -> [u32; WORKERS]
    requires { length round.now.lines ≤ 65536 }
    ensures { AreCounts round.now result }
{
    let mut counts = [0; WORKERS];
    for index in 0..round.len() {
        count_one(&mut counts, round.worker(index));
    }
    counts
}

// Counts one line more, if it is a worker's.
fn count_one(counts: &mut [u32; WORKERS], worker: Option<u8>)
    requires workers { length counts.old ≡ 8 }
    requires few { (other : ℕ) → other < 8 → get_or counts.old other 0 ≤ 65536 }
    ensures workers { length counts.new ≡ 8 }
    ensures counts { (other : ℕ) → other < 8
        → get_or counts.new other 0 ≡ get_or counts.old other 0 + counts_for worker other }
{
    let Some(worker) = worker else {
        return;
    };
    let index = usize::from(worker);
    if index >= WORKERS {
        return;
    }
    counts[index] += 1;
}

/// How many words the replies of each worker's lines have at most.
fn count_words(round: &Round<'_>) -> [u32; WORKERS]
    requires { (decls : List Decl) × CanRun decls round.now }
    ensures { AreSpaces round.now result }
{
    let mut spaces = [0; WORKERS];
    for index in 0..round.len() {
        add_words(&mut spaces, round.reply_words(index));
    }
    spaces
}

// Adds the words of one line more, if it is a worker's.
fn add_words(spaces: &mut [u32; WORKERS], asked: Option<(u8, u32)>)
    requires workers { length spaces.old ≡ 8 }
    requires words { IfSome asked (λ x. x.1 ≤ 544) }
    requires few { (other : ℕ) → other < 8 → get_or spaces.old other 0 ≤ 544 * 65536 }
    ensures workers { length spaces.new ≡ 8 }
    ensures words { (other : ℕ) → other < 8
        → get_or spaces.new other 0 ≡ get_or spaces.old other 0 + spaces_for asked other }
{
    let Some((worker, words)) = asked else {
        return;
    };
    add_for(spaces, worker, words);
}

// Adds so many words for a line of this worker.
fn add_for(spaces: &mut [u32; WORKERS], worker: u8, words: u32)
    requires workers { length spaces.old ≡ 8 }
    requires few { (other : ℕ) → other < 8 → get_or spaces.old other 0 ≤ 544 * 65536 }
    requires words { words ≤ 544 }
    ensures workers { length spaces.new ≡ 8 }
    ensures words { (other : ℕ) → other < 8
        → get_or spaces.new other 0 ≡ get_or spaces.old other 0 + cond (worker == other) words 0 }
{
    let index = usize::from(worker);
    if index >= WORKERS {
        return;
    }
    spaces[index] += words;
}

// Room for so many lines of each worker, with so many words of replies.
fn make_outcome_rooms(
    alloc: Global,
    counts: &[u32; WORKERS],
    spaces: &[u32; WORKERS],
) -> Result<Vec<OutcomeRoom>, Memory>
    requires counts { length counts.now ≡ 8 }
    requires spaces { length spaces.now ≡ 8 }
    ensures { IfOk result (λ rooms. (vec_len rooms ≡ 8) × AreRooms counts.now spaces.now rooms.items) }
{
    let mut rooms = Vec::with_capacity(alloc, WORKERS)?;
    for worker in 0..WORKERS {
        rooms.push_reserved(OutcomeRoom::new(
            alloc,
            counts[worker] as usize,
            spaces[worker] as usize,
        )?);
    }
    Ok(rooms)
}

// Buckets go from two mappers to two reducers.
ghost use Rattle.std.specs.Prelude.{◌≡◌, ◌<◌, ◌++◌, List, Option, None, Err, IfErr, IfOk, OnOk};
ghost use Rattle.bucket_queues.specs.Taken.{HasGathered};
ghost use Rattle.std.specs.BTreeMap as tree;
ghost use Rattle.std.specs.Thread.{IsSend, IsSync};
ghost use Rattle.crossbeam_queue.specs.Passes.{view, IsPassOf, IsSamePass};
ghost use Rattle.serial_model.specs.Keys.{key_cmp};
ghost use Rattle.bucket_queues.specs.Threads.{AreGathered, closed, fault_in, fresh, HasPut, HasReduced, IsSameMapper};
ghost use Rattle.wire_form.specs.declared.bucket.Bucket.{Bucket as TheBucket};

use crate::from_queues::{gather, reduce_from};
use crate::into_queues::Mapper;
use crate::rule::{BucketPass, BucketQueue, PartOff, PartsMeet};
use lists::{Memory, OrMemory};
use log_reducer::Logged;
use serial_model::Key;
use std::alloc::Global;
use std::collections::BTreeMap;
use std::sync::Wait;
use std::sync::atomic::{AtomicBool, Ordering};
use std::thread::{Threads, join_mut};
use wire_form::{Bucket, Run};

/// A reducer's pass of its queue, and what it keeps.
#[derive(Drop)]
pub struct Reducer {
    pub pass: BucketPass,
    pub latest: BTreeMap<Key, Logged>,
}

/// How some files are mapped into two queues.
pub trait Maps<R: Wait, D, F> {
    /// What it needs of the files.
    ghost can: { Self → List D → Type 0 };

    /// Which buckets it made of them.
    ghost made: { Self → List D → List D → List TheBucket → Type 0 };

    /// What it leaves of the files, by the fault that it answers, if it answers one.
    ghost leaves: { Self → List D → List D → Option F → Type 0 };

    /// Maps the files, and puts each bucket into a queue or keeps it back. A fault ends it.
    fn map(
        &self,
        rt: &R,
        files: &mut [D],
        even: &BucketQueue,
        odd: &BucketQueue,
        mapper: &mut Mapper,
    ) -> Result<(), OrMemory<F>>
        requires can { can self.now files.old }
        requires even { IsPassOf even.now mapper.old.at_even × (0 < (view mapper.old.at_even).parts) }
        requires odd { IsPassOf odd.now mapper.old.at_odd × (0 < (view mapper.old.at_odd).parts) }
        ensures same { IsSameMapper mapper.old mapper.new }
        ensures leaves { leaves self.now files.old files.new (fault_in result) }
        ensures made { OnOk result ((buckets : List TheBucket) × made self.now files.old files.new buckets
            × HasPut mapper.old mapper.new buckets) };
}

// Both mappers.
fn map_both<R: Threads + Wait + Sync, D: Send, F: Send + Drop, M: Maps<R, D, F> + Sync>(
    rt: &R,
    low: &M,
    high: &M,
    low_files: &mut [D],
    high_files: &mut [D],
    even: &BucketQueue,
    odd: &BucketQueue,
    low_mapper: &mut Mapper,
    high_mapper: &mut Mapper,
) -> (Result<(), OrMemory<F>>, Result<(), OrMemory<F>>)
    requires can { M.can low.now low_files.old × M.can high.now high_files.old }
    requires low { IsPassOf even.now low_mapper.old.at_even × (0 < (view low_mapper.old.at_even).parts)
        × IsPassOf odd.now low_mapper.old.at_odd × (0 < (view low_mapper.old.at_odd).parts) }
    requires high { IsPassOf even.now high_mapper.old.at_even × (0 < (view high_mapper.old.at_even).parts)
        × IsPassOf odd.now high_mapper.old.at_odd × (0 < (view high_mapper.old.at_odd).parts) }
    ensures same { IsSameMapper low_mapper.old low_mapper.new × IsSameMapper high_mapper.old high_mapper.new }
    ensures leaves { M.leaves low.now low_files.old low_files.new (fault_in result.0)
        × M.leaves high.now high_files.old high_files.new (fault_in result.1) }
    ensures low { OnOk result.0 ((buckets : List TheBucket) × M.made low.now low_files.old low_files.new buckets
        × HasPut low_mapper.old low_mapper.new buckets) }
    ensures high { OnOk result.1 ((buckets : List TheBucket) × M.made high.now high_files.old high_files.new buckets
        × HasPut high_mapper.old high_mapper.new buckets) }
{
    let mut there = || -> Result<(), OrMemory<F>>
        requires { IsSync R.row × IsSend D.row × IsSend F.row × IsSync M.row × M.can low.now low_files.now
            × IsPassOf even.now low_mapper.now.at_even × (0 < (view low_mapper.now.at_even).parts)
            × IsPassOf odd.now low_mapper.now.at_odd × (0 < (view low_mapper.now.at_odd).parts) }
        ensures { IsSameMapper low_mapper.entry.now low_mapper.exit.now
            × M.leaves low.entry.now low_files.entry.now low_files.exit.now (fault_in result)
            × OnOk result ((buckets : List TheBucket) × M.made low.entry.now low_files.entry.now low_files.exit.now buckets
            × HasPut low_mapper.entry.now low_mapper.exit.now buckets) }
    { low.map(rt, low_files, even, odd, low_mapper) };
    let mut here = || -> Result<(), OrMemory<F>>
        requires { IsSync R.row × IsSend D.row × IsSend F.row × IsSync M.row × M.can high.now high_files.now
            × IsPassOf even.now high_mapper.now.at_even × (0 < (view high_mapper.now.at_even).parts)
            × IsPassOf odd.now high_mapper.now.at_odd × (0 < (view high_mapper.now.at_odd).parts) }
        ensures { IsSameMapper high_mapper.entry.now high_mapper.exit.now
            × M.leaves high.entry.now high_files.entry.now high_files.exit.now (fault_in result)
            × OnOk result ((buckets : List TheBucket) × M.made high.entry.now high_files.entry.now high_files.exit.now buckets
            × HasPut high_mapper.entry.now high_mapper.exit.now buckets) }
    { high.map(rt, high_files, even, odd, high_mapper) };
    join_mut(rt, &mut there, &mut here)
}

fn reduce_one<R: Wait>(
    rt: &R,
    queue: &BucketQueue,
    reducer: &mut Reducer,
    wanted: u32,
    ended: &AtomicBool,
) -> Result<(), Memory>
    requires pass { IsPassOf queue.now reducer.old.pass × (0 < (view reducer.old.pass).parts) }
    ensures same { IsSamePass reducer.old.pass reducer.new.pass }
    ensures taken { OnOk result (HasReduced reducer.old reducer.new) }
{
    reduce_from(
        rt,
        queue,
        &mut reducer.pass,
        wanted,
        ended,
        &mut reducer.latest,
    )
}

// Both reducers.
fn reduce_both<R: Threads + Wait + Sync>(
    rt: &R,
    even: &BucketQueue,
    odd: &BucketQueue,
    at_even: &mut Reducer,
    at_odd: &mut Reducer,
    wanted: [u32; 2],
    ended: &AtomicBool,
) -> (Result<(), Memory>, Result<(), Memory>)
    requires even { IsPassOf even.now at_even.old.pass × (0 < (view at_even.old.pass).parts) }
    requires odd { IsPassOf odd.now at_odd.old.pass × (0 < (view at_odd.old.pass).parts) }
    ensures same { IsSamePass at_even.old.pass at_even.new.pass × IsSamePass at_odd.old.pass at_odd.new.pass }
    ensures even { OnOk result.0 (HasReduced at_even.old at_even.new) }
    ensures odd { OnOk result.1 (HasReduced at_odd.old at_odd.new) }
{
    let [most_even, most_odd] = wanted;
    let mut there = || -> Result<(), Memory>
        requires { IsSync R.row × IsPassOf even.now at_even.now.pass × (0 < (view at_even.now.pass).parts) }
        ensures { IsSamePass at_even.entry.now.pass at_even.exit.now.pass × OnOk result (HasReduced at_even.entry.now at_even.exit.now) }
    { reduce_one(rt, even, at_even, most_even, ended) };
    let mut here = || -> Result<(), Memory>
        requires { IsSync R.row × IsPassOf odd.now at_odd.now.pass × (0 < (view at_odd.now.pass).parts) }
        ensures { IsSamePass at_odd.entry.now.pass at_odd.exit.now.pass × OnOk result (HasReduced at_odd.entry.now at_odd.exit.now) }
    { reduce_one(rt, odd, at_odd, most_odd, ended) };
    join_mut(rt, &mut there, &mut here)
}

// What the two mappers and the two reducers answered.
#[derive(Drop)]
struct Answers<F> {
    low: Result<(), OrMemory<F>>,
    high: Result<(), OrMemory<F>>,
    even: Result<(), Memory>,
    odd: Result<(), Memory>,
}

// The mappers and the reducers at once. The reducers wait no more once both mappers have ended.
fn run_all<R: Threads + Wait + Sync, D: Send, F: Send + Drop, M: Maps<R, D, F> + Sync>(
    rt: &R,
    low: &M,
    high: &M,
    low_files: &mut [D],
    high_files: &mut [D],
    even: &BucketQueue,
    odd: &BucketQueue,
    low_mapper: &mut Mapper,
    high_mapper: &mut Mapper,
    at_even: &mut Reducer,
    at_odd: &mut Reducer,
    wanted: [u32; 2],
) -> Answers<F>
    requires can { M.can low.now low_files.old × M.can high.now high_files.old }
    requires low { IsPassOf even.now low_mapper.old.at_even × (0 < (view low_mapper.old.at_even).parts)
        × IsPassOf odd.now low_mapper.old.at_odd × (0 < (view low_mapper.old.at_odd).parts) }
    requires high { IsPassOf even.now high_mapper.old.at_even × (0 < (view high_mapper.old.at_even).parts)
        × IsPassOf odd.now high_mapper.old.at_odd × (0 < (view high_mapper.old.at_odd).parts) }
    requires even { IsPassOf even.now at_even.old.pass × (0 < (view at_even.old.pass).parts) }
    requires odd { IsPassOf odd.now at_odd.old.pass × (0 < (view at_odd.old.pass).parts) }
    ensures same { IsSameMapper low_mapper.old low_mapper.new × IsSameMapper high_mapper.old high_mapper.new
        × IsSamePass at_even.old.pass at_even.new.pass × IsSamePass at_odd.old.pass at_odd.new.pass }
    ensures leaves { M.leaves low.now low_files.old low_files.new (fault_in result.low)
        × M.leaves high.now high_files.old high_files.new (fault_in result.high) }
    ensures low { OnOk result.low ((buckets : List TheBucket) × M.made low.now low_files.old low_files.new buckets
        × HasPut low_mapper.old low_mapper.new buckets) }
    ensures high { OnOk result.high ((buckets : List TheBucket) × M.made high.now high_files.old high_files.new buckets
        × HasPut high_mapper.old high_mapper.new buckets) }
    ensures even { OnOk result.even (HasReduced at_even.old at_even.new) }
    ensures odd { OnOk result.odd (HasReduced at_odd.old at_odd.new) }
{
    let ended = AtomicBool::new(false);
    let mut mappers = || -> (Result<(), OrMemory<F>>, Result<(), OrMemory<F>>)
        requires { IsSync R.row × IsSend D.row × IsSend F.row × IsSync M.row
            × M.can low.now low_files.now × M.can high.now high_files.now
            × IsPassOf even.now low_mapper.now.at_even × (0 < (view low_mapper.now.at_even).parts)
            × IsPassOf odd.now low_mapper.now.at_odd × (0 < (view low_mapper.now.at_odd).parts)
            × IsPassOf even.now high_mapper.now.at_even × (0 < (view high_mapper.now.at_even).parts)
            × IsPassOf odd.now high_mapper.now.at_odd × (0 < (view high_mapper.now.at_odd).parts) }
        ensures { IsSameMapper low_mapper.entry.now low_mapper.exit.now × IsSameMapper high_mapper.entry.now high_mapper.exit.now
            × M.leaves low.entry.now low_files.entry.now low_files.exit.now (fault_in result.0)
            × M.leaves high.entry.now high_files.entry.now high_files.exit.now (fault_in result.1)
            × OnOk result.0 ((buckets : List TheBucket) × M.made low.entry.now low_files.entry.now low_files.exit.now buckets
            × HasPut low_mapper.entry.now low_mapper.exit.now buckets)
            × OnOk result.1 ((buckets : List TheBucket) × M.made high.entry.now high_files.entry.now high_files.exit.now buckets
            × HasPut high_mapper.entry.now high_mapper.exit.now buckets) }
    {
        let answers = map_both(
            rt,
            low,
            high,
            low_files,
            high_files,
            even,
            odd,
            low_mapper,
            high_mapper,
        );
        ended.store(true, Ordering::SeqCst);
        answers
    };
    let mut reducers = || -> (Result<(), Memory>, Result<(), Memory>)
        requires { IsSync R.row × IsPassOf even.now at_even.now.pass × (0 < (view at_even.now.pass).parts)
            × IsPassOf odd.now at_odd.now.pass × (0 < (view at_odd.now.pass).parts) }
        ensures { IsSamePass at_even.entry.now.pass at_even.exit.now.pass × IsSamePass at_odd.entry.now.pass at_odd.exit.now.pass
            × OnOk result.0 (HasReduced at_even.entry.now at_even.exit.now)
            × OnOk result.1 (HasReduced at_odd.entry.now at_odd.exit.now) }
    { reduce_both(rt, even, odd, at_even, at_odd, wanted, &ended) };
    // Where no thread can be made, the second runs first: reducers that come before their mappers wait in vain.
    let (reduced, mapped) = join_mut(rt, &mut reducers, &mut mappers);
    Answers {
        low: mapped.0,
        high: mapped.1,
        even: reduced.0,
        odd: reduced.1,
    }
}

// How many buckets a queue has room for.
const ROOM: usize = 16;

/// The passes of a queue: of who opened it, of the two mappers, and of its reducer.
#[derive(Drop)]
pub struct Ends {
    pub rest: BucketPass,
    pub low: BucketPass,
    pub high: BucketPass,
    pub takes: BucketPass,
}

/// Opens a queue, with room for 16 buckets.
pub fn open_queue(alloc: Global) -> Result<(BucketQueue, Ends), Memory>
    ensures rest { IfOk result (λ q. IsPassOf q.0 q.1.rest × (view q.1.rest ≡ fresh)) }
    ensures low { IfOk result (λ q. IsPassOf q.0 q.1.low × (view q.1.low ≡ fresh)) }
    ensures high { IfOk result (λ q. IsPassOf q.0 q.1.high × (view q.1.high ≡ fresh)) }
    ensures takes { IfOk result (λ q. IsPassOf q.0 q.1.takes × (view q.1.takes ≡ fresh)) }
{
    let (queue, mut rest) = BucketQueue::ruled(alloc, ROOM)?;
    let low = queue.another::<PartOff>(&mut rest);
    let high = queue.another::<PartOff>(&mut rest);
    let takes = queue.another::<PartOff>(&mut rest);
    let ends = Ends {
        rest,
        low,
        high,
        takes,
    };
    Ok((queue, ends))
}

// Takes all passes in.
fn close_queue(
    queue: &BucketQueue,
    rest: &mut BucketPass,
    low: BucketPass,
    high: BucketPass,
    takes: BucketPass,
)
    requires rest { IsPassOf queue.now rest.old × (view rest.old ≡ fresh) }
    requires low { IsPassOf queue.now low }
    requires high { IsPassOf queue.now high }
    requires takes { IsPassOf queue.now takes }
    ensures same { IsSamePass rest.old rest.new }
    ensures whole { view rest.new ≡ closed fresh (view low) (view high) (view takes) }
{
    queue.absorb::<PartsMeet>(rest, low);
    queue.absorb::<PartsMeet>(rest, high);
    queue.absorb::<PartsMeet>(rest, takes);
}

// The run of what is left, once all have ended.
fn finish<R: Wait>(
    rt: &R,
    alloc: Global,
    even: (&BucketQueue, BucketPass),
    odd: (&BucketQueue, BucketPass),
    low: Mapper,
    high: Mapper,
    at_even: Reducer,
    at_odd: Reducer,
) -> Result<Run, Memory>
    requires rest { IsPassOf even.0.now even.1 × (view even.1 ≡ fresh) × IsPassOf odd.0.now odd.1 × (view odd.1 ≡ fresh) }
    requires low { IsPassOf even.0.now low.at_even × IsPassOf odd.0.now low.at_odd }
    requires high { IsPassOf even.0.now high.at_even × IsPassOf odd.0.now high.at_odd }
    requires takes { IsPassOf even.0.now at_even.pass × IsPassOf odd.0.now at_odd.pass }
    requires parts { ((view low.at_even).parts ≡ 1) × ((view high.at_even).parts ≡ 1) × ((view at_even.pass).parts ≡ 1)
        × ((view low.at_odd).parts ≡ 1) × ((view high.at_odd).parts ≡ 1) × ((view at_odd.pass).parts ≡ 1) }
    ensures { IfOk result (HasGathered (closed fresh (view low.at_even) (view high.at_even) (view at_even.pass))
        (closed fresh (view low.at_odd) (view high.at_odd) (view at_odd.pass)) (tree.get key_cmp at_even.latest)
        (tree.get key_cmp at_odd.latest) low.back.items high.back.items) }
{
    let (even, mut even_rest) = even;
    let (odd, mut odd_rest) = odd;
    let Mapper {
        at_even: low_even,
        at_odd: low_odd,
        back: low_back,
    } = low;
    let Mapper {
        at_even: high_even,
        at_odd: high_odd,
        back: high_back,
    } = high;
    let Reducer {
        pass: takes_even,
        latest: kept_even,
    } = at_even;
    let Reducer {
        pass: takes_odd,
        latest: kept_odd,
    } = at_odd;
    close_queue(even, &mut even_rest, low_even, high_even, takes_even);
    close_queue(odd, &mut odd_rest, low_odd, high_odd, takes_odd);
    Ok(gather(
        rt,
        alloc,
        even,
        odd,
        &mut even_rest,
        &mut odd_rest,
        kept_even,
        kept_odd,
        low_back,
        high_back,
    )?)
}

/// What two mappers answered, where no run was made of their buckets: where neither refused, memory was wanted behind them.
#[derive(Drop)]
pub struct Stopped<F> {
    pub low: Result<(), OrMemory<F>>,
    pub high: Result<(), OrMemory<F>>,
}

/// The run of all buckets that two mappers make of two parts of files, through two queues with a reducer each. The buckets
/// that the reducers took, those that were left and those that were kept back are together those that were made, each
/// once. A mapper's refusal ends that mapper alone; both answers are told.
pub fn through_queues<R: Threads + Wait + Sync, D: Send, F: Send + Drop, M: Maps<R, D, F> + Sync>(
    rt: &R,
    alloc: Global,
    low: &M,
    high: &M,
    low_files: &mut [D],
    high_files: &mut [D],
    wanted: [u32; 2],
) -> Result<Run, Stopped<F>>
    requires can { M.can low.now low_files.old × M.can high.now high_files.old }
    requires still { M.leaves low.now low_files.old low_files.old None × M.leaves high.now high_files.old high_files.old None }
    ensures run { IfOk result (λ run. (a b : List TheBucket) × M.made low.now low_files.old low_files.new a
        × M.made high.now high_files.old high_files.new b × AreGathered (a ++ b) run) }
    ensures leaves { OnOk result (M.leaves low.now low_files.old low_files.new None
        × M.leaves high.now high_files.old high_files.new None) }
    ensures stopped { IfErr result (λ stopped. M.leaves low.now low_files.old low_files.new (fault_in stopped.low)
        × M.leaves high.now high_files.old high_files.new (fault_in stopped.high)) }
    ensures low { IfErr result (λ stopped. OnOk stopped.low ((a : List TheBucket)
        × M.made low.now low_files.old low_files.new a)) }
{
    let Ok((even, even_ends)) = open_queue(alloc) else {
        return Err(wants_memory());
    };
    let Ok((odd, odd_ends)) = open_queue(alloc) else {
        return Err(wants_memory());
    };
    let Ends {
        rest: even_rest,
        low: low_even,
        high: high_even,
        takes: takes_even,
    } = even_ends;
    let Ends {
        rest: odd_rest,
        low: low_odd,
        high: high_odd,
        takes: takes_odd,
    } = odd_ends;
    let mut low_mapper = Mapper {
        at_even: low_even,
        at_odd: low_odd,
        back: Vec::new(alloc),
    };
    let mut high_mapper = Mapper {
        at_even: high_even,
        at_odd: high_odd,
        back: Vec::new(alloc),
    };
    let mut at_even = Reducer {
        pass: takes_even,
        latest: BTreeMap::new(alloc),
    };
    let mut at_odd = Reducer {
        pass: takes_odd,
        latest: BTreeMap::new(alloc),
    };
    let answers = run_all(
        rt,
        low,
        high,
        low_files,
        high_files,
        &even,
        &odd,
        &mut low_mapper,
        &mut high_mapper,
        &mut at_even,
        &mut at_odd,
        wanted,
    );
    let Answers {
        low: low_mapped,
        high: high_mapped,
        even: even_reduced,
        odd: odd_reduced,
    } = answers;
    match low_mapped {
        Ok(()) => {}
        Err(fault) => return Err(Stopped {
            low: Err(fault),
            high: high_mapped,
        }),
    }
    match high_mapped {
        Ok(()) => {}
        Err(fault) => return Err(Stopped {
            low: Ok(()),
            high: Err(fault),
        }),
    }
    let Ok(()) = even_reduced else {
        return Err(Stopped {
            low: Ok(()),
            high: Ok(()),
        });
    };
    let Ok(()) = odd_reduced else {
        return Err(Stopped {
            low: Ok(()),
            high: Ok(()),
        });
    };
    match finish(
        rt,
        alloc,
        (&even, even_rest),
        (&odd, odd_rest),
        low_mapper,
        high_mapper,
        at_even,
        at_odd,
    ) {
        Ok(run) => Ok(run),
        Err(_) => Err(Stopped {
            low: Ok(()),
            high: Ok(()),
        }),
    }
}

// Memory was wanted before anything was mapped.
fn wants_memory<F>() -> Stopped<F>
    ensures low { result.low ≡ Err OrMemory.Memory }
    ensures high { result.high ≡ Err OrMemory.Memory }
{
    Stopped {
        low: Err(OrMemory::Memory),
        high: Err(OrMemory::Memory),
    }
}

// What is told where transactions of a run didn't commit: why, and what to do.
use crate::notes::put;
use crate::printed_lines::Printed;
use outside::Sink;
use std::alloc::{AllocError, Global};

/// That lines were printed which tell of transactions that were full or wide, and what to do. Where a run was told in
/// brief and was done, that not all of so many transactions committed.
pub fn tell_refused_lines<N: Sink>(
    alloc: Global,
    notes: &mut N,
    printed: Printed,
    lines: u64,
    is_done: bool,
) {
    if printed.full > 0 {
        put(notes, full_told(alloc, printed.full));
    }
    if printed.wide > 0 {
        put(notes, wide_told(alloc, printed.wide));
    }
    if let Some(commits) = printed.commits {
        if is_done && commits < lines {
            put(
                notes,
                rest_told(alloc, lines.saturating_sub(commits), lines),
            );
        }
    }
}

fn full_told(alloc: Global, count: u64) -> Result<String, AllocError> {
    format!(in alloc;
        "foedus: full: {count} of the transactions found no free slot. Run with more --slots, or put k glean and k drop, \
         in this order, into rounds between; and the next run begins with all slots free\n"
    )
}

fn wide_told(alloc: Global, count: u64) -> Result<String, AllocError> {
    format!(in alloc;
        "foedus: wide: {count} of the transactions met more keys or pages than one can keep. Put fewer operations into a \
         line; and the next run begins with trees whose leaves aren't split in memory, so that ways are short\n"
    )
}

fn rest_told(alloc: Global, rest: u64, lines: u64) -> Result<String, AllocError> {
    format!(in alloc;
        "foedus: {rest} of the {lines} transactions didn't commit: they were in conflict, full or wide. Without --brief \
         a line tells of each\n"
    )
}

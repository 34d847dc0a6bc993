// Want of memory.
ghost use Rattle.std.specs.Prelude.{◌≡◌};
ghost use Rattle.lists.specs.declared.memory.OrMemory.TheVariants as errors;

use std::alloc::{AllocError, AllocFailed};

/// A growth was refused.
#[derive(Clone, Copy, Debug, PartialEq, Eq)]
pub struct Memory;

/// A fault of the call's own, or want of memory.
#[derive(Clone, Copy, Debug, PartialEq, Eq, Drop)]
pub enum OrMemory<F> {
    Fault(F),
    Memory,
}

impl From<AllocError> for Memory {
    fn from(_refused: AllocError) -> Memory {
        Memory
    }
}

/// What could not be stored is dropped.
impl<T: Drop> From<AllocFailed<T>> for Memory {
    fn from(_refused: AllocFailed<T>) -> Memory {
        Memory
    }
}

impl<F> From<Memory> for OrMemory<F> {
    ghost from_gives = { λ _ error. error ≡ errors.Memory };

    fn from(_refused: Memory) -> OrMemory<F> {
        OrMemory::Memory
    }
}

impl<F> From<AllocError> for OrMemory<F> {
    ghost from_gives = { λ _ error. error ≡ errors.Memory };

    fn from(_refused: AllocError) -> OrMemory<F> {
        OrMemory::Memory
    }
}

/// What could not be stored is dropped.
impl<F, T: Drop> From<AllocFailed<T>> for OrMemory<F> {
    ghost from_gives = { λ _ error. error ≡ errors.Memory };

    fn from(_refused: AllocFailed<T>) -> OrMemory<F> {
        OrMemory::Memory
    }
}

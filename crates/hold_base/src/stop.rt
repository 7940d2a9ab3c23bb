use std::alloc::{AllocError, AllocFailed};

/// Want of memory.
#[derive(Clone, Copy, Debug, PartialEq, Eq)]
pub struct Memory;

impl From<AllocError> for Memory {
    ghost use Rattle.std.specs.Prelude.{◌≡◌};
    ghost use Rattle.hold_base.specs.declared.stop.Memory.{Memory};

    fn from(_error: AllocError) -> Memory {
        Memory
    }
}

impl<T: Drop> From<AllocFailed<T>> for Memory {
    fn from(_error: AllocFailed<T>) -> Memory {
        Memory
    }
}

/// Why a call stops that can be refused: want of memory, or a fault that has a cause.
#[derive(Clone, Debug, Drop, PartialEq, Eq)]
pub enum Stop<F> {
    Memory,
    Fault(F),
}

impl<F> From<AllocError> for Stop<F> {
    ghost use Rattle.std.specs.Prelude.{◌≡◌};
    ghost use Rattle.hold_base.specs.declared.stop.Stop.TheVariants.{Memory as OutOfMemory};

    ghost from_gives = { λ _ e. e ≡ OutOfMemory };

    fn from(_error: AllocError) -> Stop<F> {
        Stop::Memory
    }
}

impl<F, T: Drop> From<AllocFailed<T>> for Stop<F> {
    ghost use Rattle.std.specs.Prelude.{◌≡◌};
    ghost use Rattle.hold_base.specs.declared.stop.Stop.TheVariants.{Memory as OutOfMemory};

    ghost from_gives = { λ _ e. e ≡ OutOfMemory };

    fn from(_error: AllocFailed<T>) -> Stop<F> {
        Stop::Memory
    }
}

impl<F> From<Memory> for Stop<F> {
    ghost use Rattle.std.specs.Prelude.{◌≡◌};
    ghost use Rattle.hold_base.specs.declared.stop.Stop.TheVariants.{Memory as OutOfMemory};

    ghost from_gives = { λ _ e. e ≡ OutOfMemory };

    fn from(_error: Memory) -> Stop<F> {
        Stop::Memory
    }
}

/// What passes its limit.
#[derive(Clone, Copy, Debug, PartialEq, Eq)]
pub enum What {
    /// A bound of a range.
    Bound,
    /// Net bits.
    Bits,
    Instances,
    Pins,
    /// Assigned bits.
    Assigns,
    /// Arcs of the timing graph.
    Arcs,
}

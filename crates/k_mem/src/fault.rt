//! Why a call on a program's objects is refused.

use k_num::NoMemory;
use std::alloc::AllocError;

/// Why an access through a pointer has no value: C leaves it undefined, and the profile stops there.
#[derive(Clone, Copy, Debug, PartialEq, Eq, Hash)]
pub enum MemTrap {
    /// The element has no value yet.
    Uninit,
    /// The pointer points past the object's last element.
    OutOfBounds,
    /// The pointer would leave its object, the place one past the last element included.
    PointerRange,
    /// The two pointers point into different objects.
    PointerOrder,
    /// The object is dead.
    Dangling,
    /// The object is a literal's.
    ReadOnly,
}

/// Why no object was made.
#[derive(Clone, Copy, Debug, PartialEq, Eq, Hash)]
pub enum PushFault {
    /// There would be too many live elements, or there is no number left for another object.
    MemoryLimit,
    /// No memory was found.
    Memory,
}

impl From<NoMemory> for PushFault {
    ghost use Rattle.std.specs.Prelude.{◌≡◌};
    ghost use Rattle.k_mem.specs.declared.fault.PushFault.TheVariants.{Memory};

    ghost from_gives = { λ _ fault. fault ≡ Memory };

    fn from(_error: NoMemory) -> PushFault {
        PushFault::Memory
    }
}

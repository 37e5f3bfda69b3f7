//! How a run ends, and the traps.
ghost use Rattle.std.specs.Prelude.{◌≡◌};
ghost use Rattle.k_ending.specs.Traps.{trap_name, trap_of as trap_of_number};

use k_num::{NumTrap, Place};

/// What stops a run where C leaves its behaviour undefined, or a limit is reached.
#[derive(Clone, Copy, Debug, PartialEq, Eq)]
pub enum Trap {
    /// A signed kind doesn't hold the exact result (C17 6.5p5).
    Overflow,
    /// The divisor is 0 (6.5.5p5).
    DivideByZero,
    /// A shift by a distance, or of a value, that has no result (6.5.7p3, p4).
    Shift,
    /// A variable or an element that was never set is read (6.3.2.1p2).
    Uninit,
    /// An element outside of its object is read or written (6.5.6p8).
    OutOfBounds,
    /// A pointer leaves its object (6.5.6p8).
    PointerRange,
    /// Pointers into two objects are compared by order, or subtracted (6.5.6p9, 6.5.8p5).
    PointerOrder,
    /// A pointer to an object that is no more is used (6.2.4p2).
    Dangling,
    /// A string is written (6.4.5p7).
    ReadOnly,
    /// The live objects have more elements than the limit.
    MemoryLimit,
    /// The live calls are more, or larger, than the limit.
    StackOverflow,
    /// The end of a function that should give a value is reached (6.9.1p12).
    FallOff,
}

/// How a run ends.
#[derive(Clone, Copy, Debug, PartialEq, Eq)]
pub enum End {
    /// `main` returned this number.
    Returned(i32),
    /// The operation at this place could not be made.
    Trapped(Trap, Place),
    /// The next operation would be one more than the run may make.
    OutOfSteps,
}

/// A trap's name in messages.
pub fn name(trap: Trap) -> &'static str
    ensures { result.now ≡ trap_name trap }
{
    match trap {
        Trap::Overflow => "Overflow",
        Trap::DivideByZero => "DivideByZero",
        Trap::Shift => "Shift",
        Trap::Uninit => "Uninit",
        Trap::OutOfBounds => "OutOfBounds",
        Trap::PointerRange => "PointerRange",
        Trap::PointerOrder => "PointerOrder",
        Trap::Dangling => "Dangling",
        Trap::ReadOnly => "ReadOnly",
        Trap::MemoryLimit => "MemoryLimit",
        Trap::StackOverflow => "StackOverflow",
        Trap::FallOff => "FallOff",
    }
}

/// The trap of an operation on numbers that has no value.
pub fn trap_of(trap: NumTrap) -> Trap
    ensures { result ≡ trap_of_number trap }
{
    match trap {
        NumTrap::Overflow => Trap::Overflow,
        NumTrap::DivideByZero => Trap::DivideByZero,
        NumTrap::Shift => Trap::Shift,
    }
}

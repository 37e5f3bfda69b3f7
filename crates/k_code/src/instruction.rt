//! The instructions of flat code.

use crate::Out;
use k_num::{Bin, Initial, Kind, Place, Seq, Un};
use k_optab::Class;

/// An operand.
#[derive(Clone, Copy, Debug, PartialEq, Eq)]
pub enum Arg {
    /// A constant.
    Number(i128),
    /// The register of this number, and whether the dependence on what it holds is broken.
    Reg(u32, bool),
}

/// Where an object lives.
#[derive(Clone, Copy, Debug, PartialEq, Eq)]
pub enum Home {
    /// The program's object of this number.
    File(u32),
    /// The object of this number among those of the live call that were made first, counted from 0.
    Local(u32),
}

/// An instruction. Its latency is that of the operation that it makes; where it makes none, it isn't read.
#[derive(Drop)]
pub struct Instr {
    pub place: Place,
    pub latency: u64,
    pub act: Do,
}

/// What an instruction does. `to` is the register that is set; the sources of what it then holds are those of the operation, or
/// none where no operation is made. Jumps are to instructions by their numbers.
#[derive(Drop)]
pub enum Do {
    /// An operation on two numbers, which are converted to the kind first (the right one of a shift to `I64`).
    Binary {
        op: Bin,
        kind: Kind,
        a: Arg,
        b: Arg,
        to: u32,
    },
    /// An operation on one number, which is converted to the kind first.
    Unary {
        op: Un,
        kind: Kind,
        a: Arg,
        to: u32,
    },
    /// An operation: the number in that kind.
    Convert {
        kind: Kind,
        a: Arg,
        to: u32,
    },
    /// An operation: the operand as it is.
    Move {
        a: Arg,
        to: u32,
    },
    /// An operation: the pointer moved forward or back by a number of elements, each of which has `scale` numbers (0 counts as 1).
    Offset {
        minus: bool,
        scale: u32,
        at: Arg,
        by: Arg,
        to: u32,
    },
    /// An operation: how two pointers compare. An operator that is no comparison counts as `Eq`.
    PtrCompare {
        op: Bin,
        a: Arg,
        b: Arg,
        to: u32,
    },
    /// An operation: how many elements lie between two pointers, each of which has `scale` numbers (0 counts as 1).
    PtrDistance {
        scale: u32,
        a: Arg,
        b: Arg,
        to: u32,
    },
    /// An operation: the number in the element pointed to.
    Load {
        at: Arg,
        to: u32,
    },
    /// An operation: the element pointed to is set to a number, which is also the value.
    Store {
        at: Arg,
        a: Arg,
        to: Option<u32>,
    },
    /// An operation: the next byte of the input, or -1 at its end.
    Input {
        to: u32,
    },
    /// An operation: bytes are written.
    Output {
        what: Out,
        args: Seq<Arg>,
        to: u32,
    },
    /// An operation of the class, `Test` or `Select`: it becomes the control source, and the value is whether the number is other
    /// than 0. Where it is, the instruction `then` comes next, else the instruction `other`.
    Test {
        a: Arg,
        then: u32,
        other: u32,
        to: Option<u32>,
        class: Class,
    },
    /// The instruction `to` comes next.
    Jump {
        to: u32,
    },
    /// An instance of the region is entered.
    Enter {
        region: u32,
    },
    /// The newest open instance is left.
    Exit,
    /// The run traps: a function that should give a value has come to its end.
    FallOff,
    /// The register holds a pointer to the object, `offset` elements behind its first, which no operation gave.
    Address {
        home: Home,
        offset: u32,
        to: u32,
    },
    /// The live call's next object is made, unset. Past the limit on live elements the run traps.
    ObjectOpen {
        elements: u32,
    },
    /// The newest objects of the live call die, so many of them.
    ObjectsClose {
        count: u32,
    },
    /// The elements of the live call's object of that number hold these numbers, and those that none names hold 0, which no operation
    /// gave. Items past the object's end are left out.
    Fill {
        local: u32,
        values: Seq<Initial>,
    },
    /// The register holds nothing.
    Forget {
        register: u32,
    },
    /// An operation, by which the function is called: its parameters hold what the operands hold, its other registers nothing, and its
    /// region is entered. A parameter without an operand holds nothing, and an operand without a parameter is read and dropped.
    /// Past the limits on live calls the run traps behind the operation. What is returned goes to the caller's register `to`.
    Call {
        func: u32,
        args: Seq<Arg>,
        to: Option<u32>,
    },
    /// The live call ends: its regions are left, its objects die, and what it has saved is dropped. A value is moved by an operation
    /// first. Without a value the caller's register holds nothing, but main gives 0. Where the first call ends the run has ended with
    /// the number that it gave, as an `I32`, or with 0 where it gave none.
    Return {
        value: Option<Arg>,
    },
    /// The control source is saved.
    Save,
    /// The newest saved control source is dropped.
    Keep,
    /// The newest saved control source is taken back.
    Back,
    /// The newest saved control source is taken back and stays saved.
    Restore,
}

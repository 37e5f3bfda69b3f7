//! A program as flat code.

use crate::Instr;
use k_num::{Initial, Place, Seq};
use k_optab::Region;

/// A program: its functions over one list of instructions, the regions that instructions enter, and the objects that are made
/// before the run begins, in this order.
#[derive(Drop)]
pub struct Code {
    pub funcs: Seq<CodeFunc>,
    pub instrs: Seq<Instr>,
    pub regions: Seq<Region>,
    pub objects: Seq<CodeObject>,
    /// The number of the function with which a run begins.
    pub main: u32,
}

/// A function. Its instructions are those from its entry to before the next greater entry of a function, or to the last of all.
#[derive(Clone, Copy, Debug, PartialEq, Eq)]
pub struct CodeFunc {
    /// The number of its first instruction.
    pub entry: u32,
    /// How many parameters it has: its first registers.
    pub params: u32,
    /// How many registers a call of it has.
    pub registers: u32,
    /// What a call of it takes of the limit on live calls: the node count of its definition.
    pub size: u32,
    /// The region that a call of it enters.
    pub region: u32,
}

/// An object that is made before the run begins.
#[derive(Drop)]
pub enum CodeObject {
    /// So many elements, which begin with these numbers; those that none names begin with 0. Items past the object's end are left
    /// out.
    Plain {
        elements: u32,
        first: Seq<Initial>,
        place: Place,
    },
    /// A string, whose elements are its bytes as signed 8-bit numbers, and can't be written.
    Literal {
        bytes: Seq<u8>,
        place: Place,
    },
}

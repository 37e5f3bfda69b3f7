//! Laws of the calls on objects, for those who rest on them. Each is the contract of a function that does
//! nothing; it speaks of all memories.
ghost use Rattle.k_mem.specs.Laws.{ElementsAreLive, ObjectsLieWithin, ElementsDiffer, KeepsOverPush, KeepsOverStore, KeepsOverFill, KeepsOverPop, KeepsWhileLive, LoadsLastStored, LoadsOthersAsBefore, LoadsAsBefore, LoadsStoredLater, LoadsValueSet, LoadsZeroBeyond, SetsNoOther, DeadForGood, PopKeepsRest, PopUndoesPush, MakesNext, UnsetHasNoValue, ZeroLoadsZero, LiteralLoadsBytes, LiteralIsReadOnly, NothingIsLaidOut, StaysLaidOut};

/// Live elements have different numbers, and an element keeps its number while its object lives.
pub fn element_numbers()
    ensures live { ElementsAreLive }
    ensures within { ObjectsLieWithin }
    ensures differ { ElementsDiffer }
    ensures over_push { KeepsOverPush }
    ensures over_store { KeepsOverStore }
    ensures over_fill { KeepsOverFill }
    ensures over_pop { KeepsOverPop }
    ensures while_live { KeepsWhileLive }
{}

/// A load reads what was stored last in its element, whatever calls came between.
pub fn last_stored()
    ensures same { LoadsLastStored }
    ensures others { LoadsOthersAsBefore }
    ensures between { LoadsAsBefore }
    ensures later { LoadsStoredLater }
{}

/// What an object's elements read once they were set together.
pub fn values_set()
    ensures value { LoadsValueSet }
    ensures zero { LoadsZeroBeyond }
    ensures others { SetsNoOther }
{}

/// What a new object is, and what its elements read.
pub fn new_objects()
    ensures next { MakesNext }
    ensures unset { UnsetHasNoValue }
    ensures zero { ZeroLoadsZero }
    ensures literal { LiteralLoadsBytes }
    ensures read_only { LiteralIsReadOnly }
{}

/// A number is that of one object alone, and a pop leaves the objects that stay as they are.
pub fn object_numbers()
    ensures dead { DeadForGood }
    ensures rest { PopKeepsRest }
    ensures undone { PopUndoesPush }
{}

/// The memory is laid out from the start, and each call leaves it so.
pub fn layout()
    ensures start { NothingIsLaidOut }
    ensures calls { StaysLaidOut }
{}

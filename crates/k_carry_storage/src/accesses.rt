//! The accesses of elements that operations make.
ghost use Rattle.std.specs.Prelude.{◌≡◌, IfOk};
ghost use Rattle.k_world.specs.Acts.{in_one, pointer_of as pointer_meant};
ghost use Rattle.k_world.specs.Operands.{value_in};
ghost use Rattle.k_code.specs.Steps.{reads_of};
ghost use Rattle.k_hcpa_store.specs.Kept.{configuration_of};
ghost use Rattle.k_carry_storage_pairs.specs.Accesses.{accessed as accessed_meant, element_in as element_meant};
ghost use Rattle.k_carry_storage.specs.Accesses.{access_by, way_at};

use k_carry_storage_pairs::Access;
use k_code::{Do, Instr};
use k_hcpa_store::Store;
use k_mem::Pointer;
use k_num::NoMemory;
use k_world::{Held, Read, Value};

/// Whether the operation of an instruction that accesses an element stores to it.
#[tactic(auto, unfolding(k_carry_storage_pairs::specs::Accesses::way_of, k_code::specs::Steps::operation_of))]
fn way_of(act: &Do) -> Option<bool>
    ensures { result ≡ way_at act.now }
{
    match act {
        Do::Load { .. } => Some(false),
        Do::Store { .. } => Some(true),
        _ => None,
    }
}

/// The pointer that a value is.
fn pointer_of(value: &Value) -> Option<Pointer>
    ensures { result ≡ pointer_meant value.now }
{
    match value {
        Value::Pointer(pointer) => Some(*pointer),
        Value::Number(_) => None,
    }
}

/// The pointer that is held, if one is.
fn pointer_in(slot: &Option<Held>) -> Option<Pointer>
    ensures { result ≡ in_one pointer_meant (value_in slot.now) }
{
    match slot {
        Some(held) => pointer_of(&held.value),
        None => None,
    }
}

/// The element to which the first of these operands points.
fn element_in(reads: &[Read]) -> Option<Pointer>
    ensures { result ≡ element_meant reads.now }
{
    match reads.first() {
        Some(read) => pointer_in(&read.slot),
        None => None,
    }
}

/// The access of an element, if there is one.
fn accessed(writes: bool, element: Option<Pointer>) -> Option<Access>
    ensures { result ≡ accessed_meant writes element }
{
    match element {
        Some(element) => Some(Access { writes, element }),
        None => None,
    }
}

/// The access that the operation of the next instruction makes, if it makes one. `reads` is a list that is kept for its operands.
pub fn next_access(
    store: &Store<'_>,
    instr: &Instr,
    reads: &mut Vec<Read>,
) -> Result<Option<Access>, NoMemory>
    ensures { IfOk result (λ a. a ≡ access_by instr.now.act (reads_of (configuration_of store.now) instr.now.act)) }
{
    match way_of(&instr.act) {
        Some(writes) => {
            store.read_operands(reads, instr)?;
            Ok(accessed(writes, element_in(reads.as_slice())))
        }
        None => Ok(None),
    }
}

//! Operations of the world by whose number a register can keep where its value came from: no count of operations passes 64 bits.
ghost use Rattle.std.specs.Prelude.{◌≡◌, ℕ, ◌<◌, [], ◌∷◌, Bool, IfOk, Ok, Some};
ghost use Rattle.k_optab.specs.declared.class.Class.{Class};
ghost use Rattle.k_num.specs.declared.place.Place.{Place};
ghost use Rattle.k_world.specs.declared.act.Act.TheVariants.{Move};
ghost use Rattle.k_world.specs.Acts.{touched};
ghost use Rattle.k_world.specs.Answers.{Makes, act_of};
ghost use Rattle.k_world.specs.Operands.{values_of};
ghost use Rattle.k_hcpa_store.specs.Slots.{CanKeep};

use k_num::Place;
use k_world::{ActRef, Done, Held, Read, RunState, Stop};

/// Makes an operation, or says how the run ends before it.
#[inline(always)]
pub fn make_in(
    world: &mut RunState<'_>,
    place: Place,
    act: ActRef<'_>,
    reads: &[Read],
) -> Result<Done, Stop>
    ensures made { (class : Class) (latency : ℕ) → Makes class latency place (act_of act.entry) reads.now world.old result world.new }
    ensures element { IfOk result (λ done. touched (act_of act.entry) (values_of reads.now) world.old.memory ≡ done.element) }
    ensures keeps { IfOk result (λ done. CanKeep done.held.source) }
{
    let made = world.operation(place, act, reads);
    let _count = world.made();
    made
}

/// Moves a value by an operation, which is left.
#[inline(always)]
pub fn move_in(world: &mut RunState<'_>, held: Held) -> Done
    requires { 0 < world.old.left }
    ensures made { (class : Class) (latency : ℕ) (place : Place) (broken : Bool) → Makes class latency place Move (record { slot = Some held; broken = broken } ∷ []) world.old (Ok result) world.new }
    ensures keeps { CanKeep result.held.source }
{
    let moved = world.move_held(held);
    let _count = world.made();
    moved
}

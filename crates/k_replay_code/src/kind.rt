//! The kinds of instructions that a run goes by in different ways.
ghost use Rattle.k_replay_code.specs.Steps.{IsKind};

use k_code::Do;

/// How a run goes by an instruction.
#[derive(Clone, Copy, Debug)]
pub enum Kind {
    /// By an operation, and on in its call.
    Operation,
    /// By no event.
    Alone,
    Enter,
    Exit,
    Call,
    Return,
}

/// The kind of an instruction.
#[tactic(auto, unfolding(k_hcpa_store::specs::Leads::goes_by, k_hcpa_store::specs::Leads::goes_alone, k_hcpa_store::specs::Leads::alone_events, k_code::specs::Steps::operation_of))]
pub fn kind_of(act: &Do) -> Kind
    ensures { IsKind act.now result }
{
    match act {
        Do::Enter { .. } => Kind::Enter,
        Do::Exit => Kind::Exit,
        Do::Call { .. } => Kind::Call,
        Do::Return { .. } => Kind::Return,
        Do::Jump { .. } => Kind::Alone,
        Do::FallOff => Kind::Alone,
        Do::Address { .. } => Kind::Alone,
        Do::ObjectOpen { .. } => Kind::Alone,
        Do::ObjectsClose { .. } => Kind::Alone,
        Do::Fill { .. } => Kind::Alone,
        Do::Forget { .. } => Kind::Alone,
        Do::Save => Kind::Alone,
        Do::Keep => Kind::Alone,
        Do::Back => Kind::Alone,
        Do::Restore => Kind::Alone,
        Do::Binary { .. } => Kind::Operation,
        Do::Unary { .. } => Kind::Operation,
        Do::Convert { .. } => Kind::Operation,
        Do::Move { .. } => Kind::Operation,
        Do::Offset { .. } => Kind::Operation,
        Do::PtrCompare { .. } => Kind::Operation,
        Do::PtrDistance { .. } => Kind::Operation,
        Do::Load { .. } => Kind::Operation,
        Do::Store { .. } => Kind::Operation,
        Do::Input { .. } => Kind::Operation,
        Do::Output { .. } => Kind::Operation,
        Do::Test { .. } => Kind::Operation,
    }
}

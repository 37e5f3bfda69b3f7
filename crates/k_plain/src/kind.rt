//! The events of an instruction, by what it does.
ghost use Rattle.k_plain.specs.Kinds.{IsKind};

use k_code::Do;
use k_optab::Class;
use k_typed_parts::class_of;

/// What is listed of an instruction.
#[derive(Clone, Copy)]
pub enum Kind {
    /// An operation of this class, behind which its call goes on.
    Operation(Class),
    /// Nothing.
    Alone,
    /// The entry of this region.
    Enter(u32),
    /// The exit of the newest one.
    Exit,
    /// The operation of a call, and the entry of the function of this number.
    Call(u32),
    /// An operation, where a value is returned, and the exits of the call's regions.
    Return(bool),
}

/// The kind of an instruction.
#[tactic(auto, unfolding(k_hcpa_store::specs::Leads::goes_by, k_hcpa_store::specs::Leads::goes_alone, k_hcpa_store::specs::Leads::alone_events, k_code::specs::Steps::operation_of))]
pub fn kind_of(act: &Do) -> Kind
    ensures { IsKind act.now result }
{
    match act {
        Do::Enter { region } => Kind::Enter(*region),
        Do::Exit => Kind::Exit,
        Do::Call { func, .. } => Kind::Call(*func),
        Do::Return { value } => Kind::Return(value.is_some()),
        Do::Jump { .. } => Kind::Alone,
        Do::FallOff => Kind::Alone,
        Do::Address { .. } => Kind::Alone,
        Do::ObjectOpen { .. } => Kind::Alone,
        Do::ObjectsClose { .. } => Kind::Alone,
        Do::Fill { .. } => Kind::Alone,
        Do::Forget { .. } => Kind::Alone,
        Do::Save => Kind::Alone,
        Do::Keep => Kind::Alone,
        Do::Back => Kind::Alone,
        Do::Restore => Kind::Alone,
        Do::Binary { op, .. } => Kind::Operation(class_of(*op)),
        Do::Unary { .. } => Kind::Operation(Class::Simple),
        Do::Convert { .. } => Kind::Operation(Class::Conv),
        Do::Move { .. } => Kind::Operation(Class::Move),
        Do::Offset { .. } => Kind::Operation(Class::Simple),
        Do::PtrCompare { .. } => Kind::Operation(Class::Simple),
        Do::PtrDistance { .. } => Kind::Operation(Class::Div),
        Do::Load { .. } => Kind::Operation(Class::Load),
        Do::Store { .. } => Kind::Operation(Class::Store),
        Do::Input { .. } => Kind::Operation(Class::Input),
        Do::Output { .. } => Kind::Operation(Class::Output),
        Do::Test { class, .. } => Kind::Operation(*class),
    }
}

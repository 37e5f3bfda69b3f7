//! What lies around a statement (C17 6.8.5, 6.8.6).
ghost use Rattle.std.specs.Prelude.{◌≡◌};
ghost use Rattle.k_types_meaning.specs.Statements as spec;
ghost use Rattle.k_types_statements.specs.Around.{around_of};

use k_types_rules::TypeView;

/// Whether a loop and a switch lie around a statement, and the type that its function gives.
#[derive(Clone, Copy)]
pub struct Around<'a> {
    pub in_loop: bool,
    pub in_switch: bool,
    pub result: TypeView<'a>,
}

/// What lies around the body of a loop.
pub(crate) fn inside_loop<'a>(around: Around<'a>) -> Around<'a>
    ensures { around_of result ≡ spec.inside_loop (around_of around.entry) }
{
    Around {
        in_loop: true,
        in_switch: around.in_switch,
        result: around.result,
    }
}

/// What lies around the parts of a switch.
pub(crate) fn inside_switch<'a>(around: Around<'a>) -> Around<'a>
    ensures { around_of result ≡ spec.inside_switch (around_of around.entry) }
{
    Around {
        in_loop: around.in_loop,
        in_switch: true,
        result: around.result,
    }
}

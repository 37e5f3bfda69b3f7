//! Jumps out of statements, by those of their parts.
ghost use Rattle.std.specs.Prelude.{◌≡◌};
ghost use Rattle.k_marks_meaning.specs.Jumps.{a_break, a_continue, a_return, is_left, jumps_of_both, no_jumps, out_of_loop, out_of_switch};

use k_marks_meaning::Jumps;

/// None.
pub(crate) fn no_jumps() -> Jumps
    ensures { result ≡ no_jumps }
{
    Jumps {
        breaks: false,
        continues: false,
        returns: false,
    }
}

/// That of a `break`.
pub(crate) fn a_break() -> Jumps
    ensures { result ≡ a_break }
{
    Jumps {
        breaks: true,
        ..no_jumps()
    }
}

/// That of a `continue`.
pub(crate) fn a_continue() -> Jumps
    ensures { result ≡ a_continue }
{
    Jumps {
        continues: true,
        ..no_jumps()
    }
}

/// That of a `return`.
pub(crate) fn a_return() -> Jumps
    ensures { result ≡ a_return }
{
    Jumps {
        returns: true,
        ..no_jumps()
    }
}

/// Those of two parts.
pub(crate) fn jumps_of_both(first: Jumps, second: Jumps) -> Jumps
    ensures { result ≡ jumps_of_both first second }
{
    Jumps {
        breaks: first.breaks || second.breaks,
        continues: first.continues || second.continues,
        returns: first.returns || second.returns,
    }
}

/// Those of a loop, whose body has these.
pub(crate) fn out_of_loop(body: Jumps) -> Jumps
    ensures { result ≡ out_of_loop body }
{
    Jumps {
        breaks: false,
        continues: false,
        returns: body.returns,
    }
}

/// Those of a switch, whose parts have these.
pub(crate) fn out_of_switch(parts: Jumps) -> Jumps
    ensures { result ≡ out_of_switch parts }
{
    Jumps {
        breaks: false,
        ..parts
    }
}

/// There is one.
pub fn any(jumps: Jumps) -> bool
    ensures { result ≡ is_left jumps }
{
    jumps.breaks || jumps.continues || jumps.returns
}

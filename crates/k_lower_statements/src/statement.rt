//! Statements without parts (C17 6.8.3, 6.8.6).
ghost use Rattle.std.specs.Prelude.{◌≡◌, Some, None};
ghost use Rattle.k_lower_code.specs.Statements.{break as break_meant, continue as continue_meant, declaration as declaration_meant, expression as expression_meant, return as return_meant, returns_value};
ghost use Rattle.k_lower_expressions.specs.Arounds.{inside_of};
ghost use Rattle.k_lower_expressions.specs.Emits.{Emits};
ghost use Rattle.k_lower_statements.specs.Sites.{at_site, objects_at, site_of};

use crate::declaration::{declare_all, drop_value, temporary};
use crate::site::Site;
use k_code::{Do, Instr};
use k_lower_expressions::{Around, does, value};
use k_num::{Box, NoMemory, Place, Seq};
use k_types_meaning::{Spot, TDeclarator, TExpr};

/// `e;`
pub fn evaluate(
    e: &Box<TExpr>,
    spot: &Spot,
    site: Site,
    around: &Around<'_>,
    out: &mut Vec<Instr>,
) -> Result<(), NoMemory>
    ensures { Emits result (at_site (site_of site) (expression_meant (inside_of around.now) spot.now e.now)) out.old.items out.new.items }
{
    drop_value(e.get(), around, out)
}

/// `break;`
pub fn break_out(
    spot: &Spot,
    site: Site,
    around: &Around<'_>,
    out: &mut Vec<Instr>,
) -> Result<(), NoMemory>
    ensures { Emits result (at_site (site_of site) (break_meant (inside_of around.now) spot.now)) out.old.items out.new.items }
{
    does(around, spot.place, Do::Jump { to: site.breaks }, out)
}

/// `continue;`
pub fn go_on(
    spot: &Spot,
    site: Site,
    around: &Around<'_>,
    out: &mut Vec<Instr>,
) -> Result<(), NoMemory>
    ensures { Emits result (at_site (site_of site) (continue_meant (inside_of around.now) spot.now)) out.old.items out.new.items }
{
    does(around, spot.place, Do::Jump { to: site.continues }, out)
}

/// `return e;`, `return;`
pub fn leave(
    of: &Option<Box<TExpr>>,
    spot: &Spot,
    site: Site,
    around: &Around<'_>,
    out: &mut Vec<Instr>,
) -> Result<(), NoMemory>
    ensures { Emits result (at_site (site_of site) (return_meant (inside_of around.now) spot.now of.now)) out.old.items out.new.items }
{
    match of {
        None => does(around, spot.place, Do::Return { value: None }, out),
        Some(e) => leave_with(e, spot.place, around, out),
    }
}

/// A value is returned.
fn leave_with(
    e: &Box<TExpr>,
    place: Place,
    around: &Around<'_>,
    out: &mut Vec<Instr>,
) -> Result<(), NoMemory>
    ensures { Emits result (returns_value (inside_of around.now) place (Some e.now)) out.old.items out.new.items }
{
    let r = temporary(around)?;
    let a = value(e.get(), true, r, around, out)?;
    does(around, place, Do::Return { value: Some(a) }, out)
}

/// A declaration. The number of the objects of the call that are live behind it is answered.
pub fn declare(
    list: &Seq<TDeclarator>,
    spot: &Spot,
    site: Site,
    around: &Around<'_>,
    out: &mut Vec<Instr>,
) -> Result<u32, NoMemory>
    ensures { Emits result (objects_at (site_of site) (declaration_meant (inside_of around.now) spot.now list.now)) out.old.items out.new.items }
{
    declare_all(list, site, around, out)
}

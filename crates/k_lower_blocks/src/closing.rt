//! The end of a text whose objects die there: its `break` and its `continue` go to pads, where the same objects die and the jump goes on.
ghost use Rattle.std.specs.Prelude.{◌≡◌, ◌+◌, ◌≤◌, length, IfOk};
ghost use Rattle.k_code.specs.declared.instruction.Do.TheVariants.{ObjectsClose};
ghost use Rattle.k_lower_blocks.specs.Arounds.{closing, pad_of, pads_of, passes_pads};
ghost use Rattle.k_lower_code.specs.Stretches.{over_size as over_meant, pad_size as pad_meant, pads_size as pads_meant, to_pads};
ghost use Rattle.k_lower_expressions.specs.Arounds.{program_of};
ghost use Rattle.k_lower_expressions.specs.Emits.{Emits};
ghost use Rattle.k_lower_statements.specs.Sites.{site_of};

use k_code::{Do, Instr};
use k_lower_expressions::{Around, above, does, next_number};
use k_lower_extents::Extent;
use k_lower_statements::Site;
use k_marks_meaning::Jumps;
use k_num::{NoMemory, Place};

/// The size of a pad, where a jump comes to it.
fn pad_size(some: bool) -> u32
    ensures is { result ≡ pad_meant some }
    ensures small { result ≤ 2 }
{
    if some { 2 } else { 0 }
}

/// The size of the jump over pads, where there are any.
fn over_size(some: bool) -> u32
    ensures is { result ≡ over_meant some }
    ensures small { result ≤ 1 }
{
    if some { 1 } else { 0 }
}

/// The size of the pads of a text with these jumps, and of the jump over them.
fn pads_size(jumps: Jumps) -> u32
    ensures { result ≡ pads_meant jumps }
{
    let over = over_size(jumps.breaks || jumps.continues);
    let breaks = pad_size(jumps.breaks);
    let continues = pad_size(jumps.continues);
    over + breaks + continues
}

/// The jump over pads, where there are any.
fn pass_pads(
    around: &Around<'_>,
    place: Place,
    some: bool,
    to: u32,
    out: &mut Vec<Instr>,
) -> Result<(), NoMemory>
    ensures { Emits result (passes_pads (program_of around.now) place some to) out.old.items out.new.items }
{
    if some {
        does(around, place, Do::Jump { to }, out)
    } else {
        Ok(())
    }
}

/// The pad of a jump, where there is one: the objects die, so many of them, and the jump goes on.
fn pad(
    around: &Around<'_>,
    place: Place,
    count: u32,
    some: bool,
    to: u32,
    out: &mut Vec<Instr>,
) -> Result<(), NoMemory>
    ensures { Emits result (pad_of (program_of around.now) place (ObjectsClose count) some to) out.old.items out.new.items }
{
    if !some {
        return Ok(());
    }
    does(around, place, Do::ObjectsClose { count }, out)?;
    does(around, place, Do::Jump { to }, out)
}

/// The pads of a text with these jumps, which go on to where the site says, and the jump over them.
fn pads(
    around: &Around<'_>,
    place: Place,
    count: u32,
    jumps: Jumps,
    site: Site,
    out: &mut Vec<Instr>,
) -> Result<(), NoMemory>
    ensures { Emits result (pads_of (program_of around.now) place (ObjectsClose count) jumps (site_of site)) out.old.items out.new.items }
{
    let first = next_number(out)?;
    let end = above(first, pads_size(jumps))?;
    pass_pads(around, place, jumps.breaks || jumps.continues, end, out)?;
    pad(around, place, count, jumps.breaks, site.breaks, out)?;
    pad(around, place, count, jumps.continues, site.continues, out)
}

/// What stands behind a text at this place, with these jumps, at whose end so many objects die: its pads, which go on to where the site
/// says, and the instruction by which the objects die. An error is want of memory.
pub fn close(
    around: &Around<'_>,
    place: Place,
    count: u32,
    jumps: Jumps,
    site: Site,
    out: &mut Vec<Instr>,
) -> Result<(), NoMemory>
    ensures { Emits result (closing (program_of around.now) place (ObjectsClose count) jumps (site_of site)) out.old.items out.new.items }
{
    pads(around, place, count, jumps, site, out)?;
    does(around, place, Do::ObjectsClose { count }, out)
}

/// The site of a text of this extent that is closed at its end and is emitted next: its jumps go to its pads. An error is want of memory.
pub fn closed_site(text: Extent, site: Site, out: &Vec<Instr>) -> Result<Site, NoMemory>
    ensures { IfOk result (λ inner. site_of inner ≡ to_pads text.jumps (length out.now.items + text.size) (site_of site)) }
{
    let first = next_number(out)?;
    let end = above(first, text.size)?;
    let over = over_size(text.jumps.breaks || text.jumps.continues);
    let breaks = above(end, over)?;
    let continues = above(breaks, pad_size(text.jumps.breaks))?;
    Ok(Site {
        objects: site.objects,
        breaks,
        continues,
    })
}

//! Statements one behind another (C17 6.8.2): where a statement makes objects, the rest of the block is a text at whose end they die.
ghost use Rattle.std.specs.Prelude.{◌≡◌, length, IfOk, OnOk};
ghost use Rattle.k_lower_blocks.specs.Arounds.{Enters, EntersBlock, Passes, ends_all};
ghost use Rattle.k_lower_code.specs.Stretches.{behind_objects};
ghost use Rattle.k_lower_expressions.specs.Arounds.{program_of};
ghost use Rattle.k_lower_expressions.specs.Emits.{Emits};
ghost use Rattle.k_lower_statements.specs.Sites.{site_of};

use crate::closing::{close, closed_site};
use k_code::Instr;
use k_lower_expressions::{Around, above};
use k_lower_extents::Extent;
use k_lower_statements::Site;
use k_marks_meaning::Jumps;
use k_num::{NoMemory, Place, Stack};

/// The end of a text whose objects die there: where it stands, how many die, the jumps of the text, and the site to which they go on.
#[derive(Clone, Copy)]
pub struct Ending {
    pub place: Place,
    pub count: u32,
    pub jumps: Jumps,
    pub site: Site,
}

/// What is left of a block: the site of the statements that come, how many objects the last statement made, the extents of the rest from the
/// next statement on, from the one behind it on, and so on, and the ends that are to come.
#[derive(Drop)]
pub struct BlockRest {
    pub site: Site,
    pub opens: u32,
    pub rests: Stack<Extent>,
    pub endings: Stack<Ending>,
}

/// The site behind a statement that makes so many objects. An error is want of memory.
pub fn site_behind(opens: u32, site: Site) -> Result<Site, NoMemory>
    ensures { IfOk result (λ there. site_of there ≡ behind_objects opens (site_of site)) }
{
    let objects = above(site.objects, opens)?;
    Ok(Site {
        objects,
        breaks: site.breaks,
        continues: site.continues,
    })
}

/// The site of the statements in the rest of a block, which is emitted next, has this extent, and stands at this place, behind a statement
/// that made so many objects. Where there are any, the end of the rest is noted on top of those that are to come. An error is want of memory.
pub fn enter_rest(
    opens: u32,
    rest: Extent,
    place: Place,
    site: Site,
    endings: &mut Stack<Ending>,
    out: &Vec<Instr>,
) -> Result<Site, NoMemory>
    ensures { IfOk result (λ inner. Enters opens rest place site (length out.now.items) inner endings.old endings.new) }
{
    if opens == 0 {
        return Ok(site);
    }
    let inner = closed_site(rest, site, out)?;
    endings.push(Ending {
        place,
        count: opens,
        jumps: rest.jumps,
        site,
    })?;
    Ok(inner)
}

/// The rest of a block, which is emitted next and stands at this place, is entered. An error is want of memory, or of an extent of the rest.
pub fn enter_block(block: &mut BlockRest, place: Place, out: &Vec<Instr>) -> Result<(), NoMemory>
    ensures { OnOk result (EntersBlock place (length out.now.items) block.old block.new) }
{
    let Some(rest) = block.rests.pop() else {
        return Err(NoMemory);
    };
    let site = enter_rest(
        block.opens,
        rest,
        place,
        block.site,
        &mut block.endings,
        out,
    )?;
    block.site = site;
    Ok(())
}

/// A statement of a block was emitted, which makes so many objects. An error is want of memory.
pub fn pass_statement(block: &mut BlockRest, opens: u32) -> Result<(), NoMemory>
    ensures { OnOk result (Passes opens block.old block.new) }
{
    block.site = site_behind(opens, block.site)?;
    block.opens = opens;
    Ok(())
}

/// Emits the ends that are to come, from the innermost on, and takes them off. An error is want of memory.
pub fn end_all(
    endings: &mut Stack<Ending>,
    around: &Around<'_>,
    out: &mut Vec<Instr>,
) -> Result<(), NoMemory>
    ensures { Emits result (ends_all (program_of around.now) endings.old) out.old.items out.new.items }
{
    while let Some(it) = endings.pop() {
        close(around, it.place, it.count, it.jumps, it.site, out)?;
    }
    Ok(())
}

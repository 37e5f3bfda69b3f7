//! The control source around a text: it is saved before the text and taken back behind it, unless it stays as the text leaves it.
ghost use Rattle.k_code.specs.declared.instruction.Do.TheVariants.{Back, Save};
ghost use Rattle.k_lower_blocks.specs.Arounds.{unless};
ghost use Rattle.k_lower_expressions.specs.Arounds.{program_of};
ghost use Rattle.k_lower_expressions.specs.Emits.{Emits};

use k_code::{Do, Instr};
use k_lower_expressions::{Around, does};
use k_num::{NoMemory, Place};

/// Before a text at this place the control source is saved, unless it stays as the text leaves it. An error is want of memory.
pub fn save_unless(
    stays: bool,
    around: &Around<'_>,
    place: Place,
    out: &mut Vec<Instr>,
) -> Result<(), NoMemory>
    ensures { Emits result (unless stays (program_of around.now) place Save) out.old.items out.new.items }
{
    if stays {
        Ok(())
    } else {
        does(around, place, Do::Save, out)
    }
}

/// Behind a text at this place the control source is taken back, unless it stays as the text leaves it. An error is want of memory.
pub fn back_unless(
    stays: bool,
    around: &Around<'_>,
    place: Place,
    out: &mut Vec<Instr>,
) -> Result<(), NoMemory>
    ensures { Emits result (unless stays (program_of around.now) place Back) out.old.items out.new.items }
{
    if stays {
        Ok(())
    } else {
        does(around, place, Do::Back, out)
    }
}

//! Scopes of blocks and loops (C17 6.2.1p4).
ghost use Rattle.std.specs.Prelude.{◌≡◌, OnOk};
ghost use Rattle.k_types_meaning.specs.Statements.{opened};
ghost use Rattle.k_types_declarations.specs.Results.{seen};
ghost use Rattle.k_types_statements.specs.Results.{closed};

use k_num::NoMemory;
use k_types_declarations::Known;

/// Opens a scope.
pub(crate) fn open_scope(known: &mut Known) -> Result<(), NoMemory>
    ensures { OnOk result (seen known.new ≡ opened (seen known.old)) }
{
    known.names.open()?;
    Ok(())
}

/// Closes the innermost scope.
pub(crate) fn close_scope(known: &mut Known)
    ensures { seen known.new ≡ closed (seen known.old) }
{
    known.names.close();
}

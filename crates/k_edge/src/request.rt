//! What is asked of files, in order.
ghost use Rattle.std.specs.Prelude.{◌≡◌, [], ◌∷◌, ◌++◌, OnOk, OnErr};
ghost use Rattle.k_edge.specs.declared.request.Request.TheVariants.{Load, Save};

use k_num::{NoMemory, Text};

/// What is asked of a store of files.
#[derive(Debug, Drop)]
pub enum Request {
    /// The content of this name.
    Load(Text),
    /// New content for this name.
    Save(Text),
}

/// Notes that a name is loaded.
pub fn note_load(requests: &mut Vec<Request>, name: &str) -> Result<(), NoMemory>
    ensures ok { OnOk result (requests.new.items ≡ requests.old.items ++ Load name.now ∷ []) }
    ensures err { OnErr result (requests.new.items ≡ requests.old.items) }
{
    let name = Text::copy_of(*requests.allocator(), name)?;
    requests.push(Request::Load(name))?;
    Ok(())
}

/// Notes that a name is saved.
pub fn note_save(requests: &mut Vec<Request>, name: &str) -> Result<(), NoMemory>
    ensures ok { OnOk result (requests.new.items ≡ requests.old.items ++ Save name.now ∷ []) }
    ensures err { OnErr result (requests.new.items ≡ requests.old.items) }
{
    let name = Text::copy_of(*requests.allocator(), name)?;
    requests.push(Request::Save(name))?;
    Ok(())
}

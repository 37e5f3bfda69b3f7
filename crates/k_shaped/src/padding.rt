//! Padding up to a width.
ghost use Rattle.std.specs.Prelude.{◌≡◌, ◌++◌, OnOk, replicate};
ghost use Rattle.k_shaped.specs.Padding.{padded};

use k_num::NoMemory;

/// Writes a byte so many times.
pub(crate) fn put_many(out: &mut Vec<u8>, byte: u8, many: usize) -> Result<(), NoMemory>
    ensures { OnOk result (out.new.items ≡ out.old.items ++ replicate many byte) }
{
    for _k in 0..many {
        out.push(byte)?;
    }
    Ok(())
}

/// Writes a sign or prefix and what stands behind it, padded up to the width.
#[tactic(auto, unfolding(crate::specs::Padding::padded))]
pub(crate) fn put_padded(
    out: &mut Vec<u8>,
    left: bool,
    zeros: bool,
    width: u32,
    head: &[u8],
    body: &[u8],
) -> Result<(), NoMemory>
    ensures { OnOk result (out.new.items ≡ out.old.items ++ padded left zeros width head.now body.now) }
{
    let short = (width as usize)
        .saturating_sub(head.len())
        .saturating_sub(body.len());
    if left {
        out.extend_from_slice(head)?;
        out.extend_from_slice(body)?;
        put_many(out, b' ', short)?;
        return Ok(());
    }
    if zeros {
        out.extend_from_slice(head)?;
        put_many(out, b'0', short)?;
        out.extend_from_slice(body)?;
        return Ok(());
    }
    put_many(out, b' ', short)?;
    out.extend_from_slice(head)?;
    out.extend_from_slice(body)?;
    Ok(())
}

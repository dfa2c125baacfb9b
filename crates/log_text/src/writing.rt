//! Writes blocks.
ghost use Rattle.std.specs.Prelude.{◌≡◌, ◌++◌, ◌∷◌, ◌<◌, ◌^◌, [], length, IfOk, OnOk};
ghost use Rattle.log_text.specs.Lists.{AreCounted, block_of, blocks_of};
ghost use Rattle.log_text.specs.Log.{block_text, list_text, log_text};

use crate::lists::{Lists, RECORD_ORDER, Which};
use std::alloc::{AllocError, Global};
use switch_names::{Bytes, UnitName};

/// Adds a name and ends the line.
fn add_name(out: &mut Vec<u8>, name: &UnitName) -> Result<(), AllocError>
    ensures { OnOk result (out.new.items ≡ out.old.items ++ name.now ++ 10 ∷ []) }
{
    out.extend_from_slice(name.as_str().as_bytes())?;
    out.push(b'\n')?;
    Ok(())
}

/// Adds names, one a line.
fn add_names(out: &mut Vec<u8>, names: &[UnitName]) -> Result<(), AllocError>
    ensures { OnOk result (out.new.items ≡ out.old.items ++ list_text names.now) }
{
    for name in names {
        add_name(out, name)?;
    }
    Ok(())
}

/// Adds the block of a list.
fn add_block(
    alloc: Global,
    out: &mut Vec<u8>,
    which: Which,
    names: &[UnitName],
) -> Result<(), AllocError>
    ensures added { OnOk result (out.new.items ≡ out.old.items ++ block_text (block_of which names.now)) }
    ensures counted { OnOk result (length names.now < 2 ^ 64) }
{
    let header = which.header(alloc, names.len())?;
    out.extend_from_slice(header.as_str().as_bytes())?;
    out.push(b'\n')?;
    add_names(out, names)?;
    out.extend_from_slice(b"end\n")?;
    Ok(())
}

/// The text that records lists: a block for each of them, in order.
pub fn lists_text(alloc: Global, lists: &Lists) -> Result<Bytes, AllocError>
    ensures text { IfOk result (λ text. text ≡ log_text (blocks_of lists.now)) }
    ensures counted { OnOk result (AreCounted lists.now) }
{
    let mut out = Vec::new(alloc);
    for which in RECORD_ORDER {
        add_block(alloc, &mut out, which, lists.of(which).as_slice())?;
    }
    Ok(Bytes::from_vec(out))
}

/// The text that clears a list: its block without a name.
pub fn cleared_text(alloc: Global, which: Which) -> Result<Bytes, AllocError>
    ensures { IfOk result (λ text. text ≡ block_text (block_of which [])) }
{
    let mut out = Vec::new(alloc);
    add_block(alloc, &mut out, which, &[])?;
    Ok(Bytes::from_vec(out))
}

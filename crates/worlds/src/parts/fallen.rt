//! What the calls over a host answer once a cut has fallen on it.
ghost use Rattle.std.specs.Prelude.{◌≡◌, codes};
ghost use Rattle.host_memory.specs.MemoryHost.{host_of};
ghost use Rattle.host_trait.specs.Host.{Told};
ghost use Rattle.world_text.specs.Leafless.{HasNoLeaf};

use super::troubles::place;
use crate::outcome::{show_faults, word_of};
use host_memory::MemoryHost;
use host_trait::{Leaf, content};
use std::alloc::Global;
use std::test::Fail;
use switch_names::{Bytes, Path};
use tree_put::{drop_leaf, put};
use world_text::{Lines, fallen_host, misread, text_of};

/// Shows how a put on a host without leaves ends.
fn show_put(alloc: Global, lines: &mut Lines, host: &mut MemoryHost, at: &Path) -> Result<(), Fail>
    requires host { Told (host_of host.old) HasNoLeaf }
    requires at { at.now ≡ codes "etc/put" }
{
    let leaf = Leaf::link(alloc, "b")?;
    lines.add_word("put");
    lines.add_word(word_of(&put(alloc, host, at, &leaf))?);
    Ok(())
}

/// Shows how a removal and a read end on a host.
fn show_removal_and_read(
    alloc: Global,
    lines: &mut Lines,
    host: &mut MemoryHost,
    at: &Path,
) -> Result<(), Fail> {
    lines.add_word("removal");
    lines.add_word(word_of(&drop_leaf(alloc, host, at))?);
    lines.add_word("read");
    lines.add_word(word_of(&content(alloc, host, at))?);
    Ok(())
}

/// Shows how the calls of a word end on a host on which a cut has fallen, and its faults.
pub fn show_fallen(alloc: Global, lines: &mut Lines, fields: &[Bytes]) -> Result<(), Fail> {
    let [word] = fields else {
        return misread();
    };
    let at = place(alloc)?;
    let mut host = fallen_host(alloc);
    match text_of(word)? {
        "put" => show_put(alloc, lines, &mut host, &at)?,
        "drop" => show_removal_and_read(alloc, lines, &mut host, &at)?,
        _ => return misread(),
    }
    show_faults(lines, host.faults());
    Ok(())
}

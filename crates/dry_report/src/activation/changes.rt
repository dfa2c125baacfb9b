//! The names that a table drops or adds.
ghost use Rattle.std.specs.Prelude.{◌≡◌, ◌||◌, ◌&&◌, ◌∷◌, [], map, not, IfOk, OnOk};
ghost use Rattle.switch_names.specs.Names.{Name, has, is_name};
ghost use Rattle.dry_report.specs.Lines.{lacking};

use std::alloc::{AllocError, Global};
use switch_names::{Listed, Text};
use users_merge::{NameSet, Named};

/// Adds a name that others lack.
fn add_lacking(
    alloc: Global,
    names: &mut NameSet,
    others: &NameSet,
    name: &Text,
) -> Result<(), AllocError>
    ensures { OnOk result ((other : Name) → has names.new other ≡ (has names.old other || (is_name other name.now && not (has others.now other)))) }
{
    if !others.contains(name) {
        names.insert(name.copy(alloc)?)?;
    }
    Ok(())
}

/// Adds the names of rows that others lack.
fn add_all_lacking<R: Named>(
    alloc: Global,
    names: &mut NameSet,
    others: &NameSet,
    rows: &[R],
) -> Result<(), AllocError>
    ensures { OnOk result ((other : Name) → has names.new other ≡ (has names.old other || (has (map R.name_of rows.now) other && not (has others.now other)))) }
{
    for row in rows {
        add_lacking(alloc, names, others, row.name())?;
    }
    Ok(())
}

/// The names of rows that others lack, in byte order.
pub fn lacking<R: Named>(
    alloc: Global,
    rows: &[R],
    others: &[R],
) -> Result<Listed<Text>, AllocError>
    ensures { IfOk result (λ names. names ≡ lacking (map R.name_of rows.now) (map R.name_of others.now)) }
{
    let present = NameSet::of(alloc, others)?;
    let mut names = NameSet::new(alloc);
    add_all_lacking(alloc, &mut names, &present, rows)?;
    names.into_names(alloc)
}

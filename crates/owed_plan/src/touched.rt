//! The pulled units that come up by no other way.
ghost use Rattle.std.specs.Prelude.{◌≡◌, ◌&&◌, ◌||◌, List, ℕ, IfOk, OnOk, filter, not};
ghost use Rattle.host_trait.specs.Manager.{is_active};
ghost use Rattle.owed_plan.specs.Collected.{comes_up_by};
ghost use Rattle.owed_plan.specs.Decisions.{situation_of};
ghost use Rattle.switch_names.specs.Names.{has};

use crate::collecting::add_if;
use crate::known::Inputs;
use host_trait::UnitSet;
use std::alloc::{AllocError, Global};
use switch_names::UnitName;

/// The units that are stopped, and those that are on a list by themselves.
#[derive(Clone, Copy)]
pub struct Touched<'a> {
    pub stops: &'a UnitSet,
    pub listed: &'a UnitSet,
}

impl Touched<'_> {
    /// Whether a unit is Active and isn't stopped.
    fn stays_up(self, known: Inputs<'_>, unit: &UnitName) -> bool
        ensures { result ≡ (is_active ((situation_of known.entry).states unit.now) && not (has self.entry.stops.now unit.now)) }
    {
        let is_stopped = self.stops.contains(unit);
        known.is_active(unit) && !is_stopped
    }

    /// Whether a pulled unit is to be started: it neither stays up nor comes up otherwise.
    fn comes_up(self, alloc: Global, known: Inputs<'_>, unit: &UnitName) -> Result<bool, AllocError>
        ensures { IfOk result (λ is. is ≡ comes_up_by (situation_of known.entry) self.entry.stops.now (has self.entry.listed.now) unit.now) }
    {
        if self.stays_up(known, unit) {
            return Ok(false);
        }
        if self.listed.contains(unit) {
            return Ok(false);
        }
        Ok(!known.is_socketed(alloc, unit)?)
    }
}

/// Adds those of the pulled units that neither stay up nor come up otherwise.
pub fn add_pulled(
    alloc: Global,
    known: Inputs<'_>,
    touched: Touched<'_>,
    set: &mut UnitSet,
    pulled: &[UnitName],
) -> Result<(), AllocError>
    ensures { OnOk result ((unit : List ℕ) → has set.new unit ≡ (has set.old unit
        || has (filter (comes_up_by (situation_of known.entry) touched.entry.stops.now (has touched.entry.listed.now)) pulled.now) unit)) }
{
    for unit in pulled {
        let is_started = touched.comes_up(alloc, known, unit)?;
        add_if(alloc, set, unit, is_started)?;
    }
    Ok(())
}

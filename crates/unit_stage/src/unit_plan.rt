//! What a switch to a system does to the units.
ghost use Rattle.std.specs.Prelude.{◌≡◌, Bool, IfOk};
ghost use Rattle.std.specs.Option.{option_copied};
ghost use Rattle.host_trait.specs.World.{WorldState};
ghost use Rattle.switch_names.specs.Names.{Name};
ghost use Rattle.unit_stage.specs.Plan.{IsLongLog, IsUnitPlanOf, no_units};

use leaf_limits::TooLong;
use log_text::Lists;
use owed_log::{LogWrite, long_log};
use owed_plan::{Duty, Owed};
use start_order::Ordered;
use std::alloc::{AllocError, Global};
use switch_names::{Listed, SystemName, UnitName};
use unit_defs::Defs;

/// What a switch to a system does to the units.
pub struct UnitPlan {
    from: Option<SystemName>,
    defs: Defs,
    owed: Owed,
    write: LogWrite,
    steady: bool,
    ordered: Ordered,
    duties: Listed<Duty>,
}

/// One call: a derived drop is proved anew in each function that lets one go.
impl Drop for UnitPlan {
    fn drop(self) {
        let UnitPlan {
            from: _,
            defs: _,
            owed: _,
            write: _,
            steady: _,
            ordered: _,
            duties: _,
        } = self;
    }
}

impl UnitPlan {
    /// A plan of these parts.
    pub(crate) fn new(
        from: Option<SystemName>,
        defs: Defs,
        owed: Owed,
        write: LogWrite,
        steady: bool,
        ordered: Ordered,
        duties: Listed<Duty>,
    ) -> UnitPlan
        ensures { result ≡ record { from = from; defs = defs; owed = owed; write = write; steady = steady; ordered = ordered; duties = duties } }
    {
        UnitPlan {
            from,
            defs,
            owed,
            write,
            steady,
            ordered,
            duties,
        }
    }

    /// A plan that does nothing to the units.
    pub fn none(alloc: Global) -> UnitPlan
        ensures { result ≡ no_units }
    {
        UnitPlan {
            from: None,
            defs: Defs::none(alloc),
            owed: Owed {
                stops: Listed::new(alloc),
                lists: Lists::new(alloc),
                left: Listed::new(alloc),
            },
            write: LogWrite::Nothing,
            steady: true,
            ordered: Ordered {
                units: Listed::new(alloc),
                edges: Listed::new(alloc),
                broken: Listed::new(alloc),
                cycles: Listed::new(alloc),
            },
            duties: Listed::new(alloc),
        }
    }

    /// The system that is in use, where there is one.
    pub fn from(&self) -> Option<&SystemName>
        ensures { option_copied result ≡ self.now.from }
    {
        self.from.as_ref()
    }

    /// The units that the system defines.
    pub fn defs(&self) -> &Defs
        ensures { result.now ≡ self.now.defs }
    {
        &self.defs
    }

    /// The units to stop, in byte order.
    pub(crate) fn stops(&self) -> &Listed<UnitName>
        ensures { result.now ≡ self.now.owed.stops }
    {
        &self.owed.stops
    }

    /// Whether the marks of the targets and the lists of the world that the plan was made from don't
    /// contradict each other, and a log has room for the names of all units that are owed something in each of its lists.
    pub fn steady(&self) -> bool
        ensures { result ≡ self.now.steady }
    {
        self.steady
    }

    /// The units to start, to restart and to reload, as they are recorded.
    pub fn recorded(&self) -> &Lists
        ensures { result.now ≡ self.now.owed.lists }
    {
        &self.owed.lists
    }

    /// What has to be written to record these.
    pub fn write(&self) -> &LogWrite
        ensures { result.now ≡ self.now.write }
    {
        &self.write
    }

    /// The log in which this is recorded, where it would be longer than can be read again.
    pub fn long_log(&self, alloc: Global) -> Result<Option<TooLong>, AllocError>
        ensures { IfOk result (λ long. (start_up : Bool) (w : WorldState) (system : Name) → IsUnitPlanOf start_up system w self.now → IsLongLog start_up system w long) }
    {
        long_log(alloc, &self.write)
    }

    /// The units to start in the order of their starts, with what could not be kept of that order.
    pub fn ordered(&self) -> &Ordered
        ensures { result.now ≡ self.now.ordered }
    {
        &self.ordered
    }

    /// The calls on units, in their order.
    pub fn duties(&self) -> &Listed<Duty>
        ensures { result.now ≡ self.now.duties }
    {
        &self.duties
    }

    /// The changed units that get nothing, in byte order.
    pub fn left(&self) -> &Listed<UnitName>
        ensures { result.now ≡ self.now.owed.left }
    {
        &self.owed.left
    }
}

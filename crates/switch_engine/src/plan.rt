//! What a command does.
ghost use Rattle.std.specs.Prelude.{◌≡◌, ◌↔◌, IsTrue, false, option_map};
ghost use Rattle.std.specs.Option.{option_copied};
ghost use Rattle.switch_engine.specs.Plan.{activation_of, units_of};
ghost use Rattle.unit_stage.specs.Plan.{no_units};

use crate::command::Command;
use crate::row::Row;
use activation_stage::ActivationPlan;
use boot_entries::BootDefaultPlan;
use owed_plan::Duty;
use start_order::Ordered;
use std::alloc::Global;
use switch_names::{Listed, SystemName, UnitName};
use unit_defs::Defs;
use unit_stage::UnitPlan;

/// What a switch of the units does.
pub struct SwitchPlan {
    /// What is done to the units.
    pub units: UnitPlan,
    /// What is done to the accounts and to `/etc`.
    pub activation: ActivationPlan,
}

/// One call: a derived drop is proved anew in each function that lets one go.
impl Drop for SwitchPlan {
    fn drop(self) {
        let SwitchPlan {
            units: _,
            activation: _,
        } = self;
    }
}

/// What a command does, by the parts that it has.
pub struct Plan {
    command: Command,
    row: Row,
    pub(crate) switch: Option<SwitchPlan>,
    pub(crate) boot_default: Option<BootDefaultPlan>,
    nothing: UnitPlan,
}

/// One call: a derived drop is proved anew in each function that lets one go.
impl Drop for Plan {
    fn drop(self) {
        let Plan {
            command: _,
            row: _,
            switch: _,
            boot_default: _,
            nothing: _,
        } = self;
    }
}

impl Plan {
    /// A plan of these parts.
    pub(crate) fn new(
        alloc: Global,
        command: Command,
        row: Row,
        switch: Option<SwitchPlan>,
        boot_default: Option<BootDefaultPlan>,
    ) -> Plan
        ensures { result ≡ record { command = command; row = row; switch = switch; boot_default = boot_default; nothing = no_units } }
    {
        Plan {
            command,
            row,
            switch,
            boot_default,
            nothing: UnitPlan::none(alloc),
        }
    }

    /// The command that is planned.
    pub fn command(&self) -> &Command
        ensures { result.now ≡ self.now.command }
    {
        &self.command
    }

    /// What is done to the units, which is nothing where they aren't switched.
    pub fn units(&self) -> &UnitPlan
        ensures { result.now ≡ units_of self.now }
    {
        match &self.switch {
            Some(switch) => &switch.units,
            None => &self.nothing,
        }
    }

    /// What is done to the accounts and to `/etc`, where the units are switched.
    pub fn activation(&self) -> Option<&ActivationPlan>
        ensures { option_copied result ≡ activation_of self.now }
    {
        self.switch.as_ref().map(|switch| &switch.activation)
    }

    /// The system that is in use, where there is one and the units are switched.
    pub fn from(&self) -> Option<&SystemName>
        ensures { option_copied result ≡ (units_of self.now).from }
    {
        self.units().from()
    }

    /// The system that comes into use, now or at the next boot.
    pub fn to(&self) -> &SystemName
        ensures { result.now ≡ self.now.row.system }
    {
        &self.row.system
    }

    /// The number of the generation that is current then, where the profile is moved.
    pub fn number(&self) -> Option<u32>
        ensures { result ≡ option_map (λ plan. plan.number) self.now.boot_default }
    {
        self.boot_default.as_ref().map(|plan| plan.number)
    }

    /// The units that the system defines, where they are switched to it.
    pub fn defs(&self) -> &Defs
        ensures { result.now ≡ (units_of self.now).defs }
    {
        self.units().defs()
    }

    /// The units to start in the order of their starts, with what could not be kept of that order.
    pub fn ordered(&self) -> &Ordered
        ensures { result.now ≡ (units_of self.now).ordered }
    {
        self.units().ordered()
    }

    /// The calls on units, in their order.
    pub fn duties(&self) -> &Listed<Duty>
        ensures { result.now ≡ (units_of self.now).duties }
    {
        self.units().duties()
    }

    /// The changed units that get nothing, in byte order.
    pub fn left(&self) -> &Listed<UnitName>
        ensures { result.now ≡ (units_of self.now).owed.left }
    {
        self.units().left()
    }

    /// Whether the marks of the targets and the lists of the world that the plan was made from don't
    /// contradict each other, and a log has room for the names of all units that are owed something in
    /// each of its lists, which is a premise of what is promised of a command that is cut. A command that
    /// switches no units reads none of these, and so it is true of each of its plans.
    pub fn steady(&self) -> bool
        ensures { result ≡ (units_of self.now).steady }
    {
        self.units().steady()
    }

    /// Whether the plan is that of a boot, which does nothing to the units.
    pub fn boot_only(&self) -> bool
        ensures { IsTrue result ↔ (self.now.row.switches ≡ false) }
    {
        !self.row.switches
    }
}

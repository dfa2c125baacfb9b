//! A job that waits for its end.
use host_trait::Act;
use std::marker::Model;
use switch_names::UnitName;

/// A job that waits for its end: an act that is to be done to a unit. Contracts see both.
pub(crate) struct QueuedJob {
    act: Act,
    unit: UnitName,
}

/// One call: a derived drop is proved anew in each function that lets one go.
impl Drop for QueuedJob {
    fn drop(self) {
        let QueuedJob { act: _, unit: _ } = self;
    }
}

impl Model for QueuedJob {
    ghost use Rattle.job_host.specs.Settled.{Job};

    ghost Value = { Job };

    ghost view = { λ job. record { act = job.act; unit = job.unit } };
}

impl QueuedJob {
    ghost use Rattle.std.specs.Prelude.{◌≡◌};

    /// A job that is to do this to this unit.
    pub(crate) fn new(act: Act, unit: UnitName) -> QueuedJob
        ensures { result ≡ record { act = act; unit = unit } }
    {
        QueuedJob { act, unit }
    }

    /// What it is to do.
    pub(crate) fn act(&self) -> Act
        ensures { result ≡ self.now.act }
    {
        self.act
    }

    /// The unit that it is on.
    pub(crate) fn unit(&self) -> &UnitName
        ensures { result.now ≡ self.now.unit }
    {
        &self.unit
    }

    /// The unit that it was on.
    pub(crate) fn into_unit(self) -> UnitName
        ensures { result ≡ self.unit }
    {
        let QueuedJob { act: _, unit } = self;
        unit
    }
}

//! The kinds of units.
ghost use Rattle.std.specs.Prelude.{◌≡◌};
ghost use Rattle.switch_names.specs.UnitKind.{ending_of, has_ending, kind_of};

/// What a unit is, by the ending of its name.
#[derive(Clone, Copy, Debug, PartialEq, Eq)]
pub enum UnitKind {
    /// `.service`: a process that the manager starts and watches.
    Service,
    /// `.socket`: a socket or a pipe that starts a service.
    Socket,
    /// `.target`: a group of units.
    Target,
    /// `.mount`: a file system that is mounted.
    Mount,
    /// `.automount`: a place that is mounted when it is used.
    Automount,
    /// `.swap`: a device or file for swapping.
    Swap,
    /// `.path`: a file that starts a service when it changes.
    Path,
    /// `.slice`: a group of processes whose resources are limited together.
    Slice,
    /// `.timer`: a time at which a service starts.
    Timer,
    /// `.scope`: processes that the manager didn't start.
    Scope,
    /// `.device`: a device of the kernel.
    Device,
}

/// Every kind.
const KINDS: [UnitKind; 11] = [
    UnitKind::Service,
    UnitKind::Socket,
    UnitKind::Target,
    UnitKind::Mount,
    UnitKind::Automount,
    UnitKind::Swap,
    UnitKind::Path,
    UnitKind::Slice,
    UnitKind::Timer,
    UnitKind::Scope,
    UnitKind::Device,
];

impl UnitKind {
    /// How the names of units of this kind end, with the dot.
    pub fn ending(self) -> &'static str
        ensures { result.now ≡ ending_of self }
    {
        match self {
            UnitKind::Service => ".service",
            UnitKind::Socket => ".socket",
            UnitKind::Target => ".target",
            UnitKind::Mount => ".mount",
            UnitKind::Automount => ".automount",
            UnitKind::Swap => ".swap",
            UnitKind::Path => ".path",
            UnitKind::Slice => ".slice",
            UnitKind::Timer => ".timer",
            UnitKind::Scope => ".scope",
            UnitKind::Device => ".device",
        }
    }
}

/// Whether a text is something and then the ending.
fn has_ending(text: &[u8], ending: &[u8]) -> bool
    ensures { result ≡ has_ending text.now ending.now }
{
    ending.len() < text.len() && text.ends_with(ending)
}

/// The kind whose ending a text has.
#[tactic(auto, unfolding(crate::specs::UnitKind::kind_of))]
pub(crate) fn kind_of(text: &str) -> Option<UnitKind>
    ensures { result ≡ kind_of text.now }
{
    KINDS.iter().copied().find(|kind| has_ending(text.as_bytes(), kind.ending().as_bytes()))
}

//! What is asked of a service manager.
use switch_names::{Text, UnitName};

/// One thing that a service manager does in one go: systemctl(1), "Unit Commands" and "Manager
/// State Commands".
#[derive(Drop)]
pub enum Call {
    /// A unit is stopped.
    Stop(UnitName),
    /// A unit is started, where it isn't yet.
    Start(UnitName),
    /// A unit is stopped, and then started.
    Restart(UnitName),
    /// A unit is told to read its configuration anew.
    Reload(UnitName),
    /// A unit is stopped as the first half of a restart.
    Halt(UnitName),
    /// The definitions that lie here are loaded.
    DaemonReload(Text),
}

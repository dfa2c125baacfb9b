//! A host and a sink in memory: what a run changes and puts out, with cuts and faults on demand.
#![tactic(auto)]

mod calls;
mod changing_call;
mod cuts;
mod failures;
mod history;
mod memory_host;
mod memory_sink;
mod queueing;
mod rebooting;
mod troubles;

pub use memory_host::MemoryHost;
pub use memory_sink::MemorySink;

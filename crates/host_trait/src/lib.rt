//! The world that a run changes, and the host that a run reads and changes it through.
#![tactic(auto)]

mod copying;
mod definitions;
mod entry;
mod known_path;
mod leaf;
mod leaf_map;
mod manager;
mod manager_state;
mod reading;
mod rebooting;
mod sink;
mod states;
mod tops;
mod tree;
mod unit_set;
mod unit_state;
mod world;
mod world_fault;

pub use definitions::{definitions_path, loaded_text};
pub use entry::{Act, Bad, Entry};
pub use known_path::{fixed_path, stage_path};
pub use leaf::{Leaf, LeafKind, MODE_MAX};
pub use manager::Manager;
pub use manager_state::ManagerState;
pub use reading::{content, store_content};
pub use sink::{Sink, SinkFault};
pub use states::States;
pub use tree::{HostFault, Tree};
pub use unit_set::UnitSet;
pub use unit_state::{State, UnitState};
pub use world::World;
pub use world_fault::WorldFault;

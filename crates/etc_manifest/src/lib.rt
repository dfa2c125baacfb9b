//! What a system wants below `/etc`: the entries of its `etc` folder, each as a link or as a copy.
#![tactic(auto)]

mod companion;
mod content;
mod counting;
mod entry;
mod item;
mod laws;
mod manifest;
mod manifest_fault;
mod mode;
mod names;
mod owners;
mod place;
mod reading;
mod taking;

pub use counting::count;
pub use item::{Item, ItemKind};
pub use laws::{
    first_refused_is_found, manifests_are_apart, manifests_say_what_is_wanted, names_are_entries,
    taken_contents_are_short,
};
pub use manifest::Manifest;
pub use manifest_fault::ManifestFault;
pub use owners::Owners;
pub use place::is_reserved;
pub use taking::taken;

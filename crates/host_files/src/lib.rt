//! What the hosts of the program do outside of memory: files, folders, and standard output.
//!
//! Whatever finds or changes what stands at a place follows no symbolic link at its end; a file is read as
//! it was found just before: what somebody else puts there between these two calls, a link or a pipe, is
//! opened as it is. A file is replaced in one step. What a signal keeps from being opened, and what it keeps
//! from being read from a file or written, is tried again.
#![tactic(auto)]

mod cause;
mod clearing;
mod entries;
mod manager_file;
mod new_mode;
mod node_file;
mod out_sink;
mod place;
mod syncing;
mod watched;

pub use cause::cause_of;
pub use clearing::clear_folder;
pub use entries::{Entries, push_entries};
pub use manager_file::ManagerFile;
pub use new_mode::make_folder;
pub use node_file::{append_bytes, read_leaf, write_new};
pub use out_sink::OutSink;
pub use place::{FolderId, PlaceKind, fault_of, foreign, kind_of_entry, look, place_in};
pub use syncing::{Syncing, sync_folder};
pub use watched::Watched;

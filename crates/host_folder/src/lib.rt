//! A tree of leaves and a service manager in a folder of the file system.
//!
//! Each leaf is a node file below `<root>/tree`, and the manager's state is the file
//! `<root>/manager`. Nothing outside the root is read, written or removed, whatever stands below it, as long as
//! nobody else changes the tree while the host is in use: no symbolic link below the tree is followed.
//!
//! A folder of the tree is looked at once, and again right before something changes in it. So somebody who puts a
//! link in its place meanwhile has what the link leads to read; a change is a fault then, but for one that falls
//! between that look and the change.
#![tactic(auto)]

mod fault;
mod folders;
mod host;
mod listing;
mod service;
mod stage;

pub use host::FolderHost;

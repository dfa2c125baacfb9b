//! What a switch tells of accounts and of `/etc` before it changes them.

mod accounts;
mod changes;
mod lines;
mod reporting;

pub(crate) use self::lines::write_told;
pub(crate) use self::reporting::write_activation;

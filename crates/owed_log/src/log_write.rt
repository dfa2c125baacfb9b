//! What has to be written to record lists.
use switch_names::Bytes;

/// The greatest length of a log that is appended to, in bytes: 64 KiB.
pub const LOG_MAX: usize = 65_536;

/// What has to be written to record lists.
#[derive(Drop)]
pub enum LogWrite {
    /// Nothing: there is nothing to record, and no log stands.
    Nothing,
    /// These bytes, behind those of the log.
    Append(Bytes),
    /// A log of these bytes, in the place of what stands.
    Put(Bytes),
}

//! Answers what is asked of the units of a system: which has a text, what it wants, which is faulty.
pub mod fault;
pub mod search;
pub mod wanting;

//! What a part of a switch is: the places that it owns, what it leaves there, when it is refused, and
//! what each moment of its work keeps. And how a part puts what others rest on.
#![tactic(auto)]

mod keeping;
mod plan_fault;
mod puts;
mod refusal;

pub use keeping::put_kept;
pub use plan_fault::{PlanFault, refuse};
pub use puts::{long_put, long_with};
pub use refusal::{MapFile, Refusal, TableFile, What, long_refusal, too_many};

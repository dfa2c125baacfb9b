//! The account tables passwd, group and shadow, read and written.
#![tactic(auto)]

mod field;
mod firsts;
mod group;
mod order;
mod passwd;
mod row_fault;
mod shadow;
mod table;
mod tables;

pub use field::read_id;
pub use group::{GroupRow, read_group, write_group};
pub use order::{group_in_order, passwd_in_order};
pub use passwd::{PasswdRow, read_passwd, write_passwd};
pub use row_fault::RowFault;
pub use shadow::{ShadowRow, read_shadow, write_shadow};
pub use tables::Tables;

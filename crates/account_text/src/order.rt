//! The order of rows: by id, and then by name.
ghost use Rattle.std.specs.Prelude.{◌≡◌, true, map};
ghost use Rattle.account_text.specs.Group.{group_name, IsSoundGroup};
ghost use Rattle.account_text.specs.Order.{by_id, group_key, passwd_key, IsInOrder};
ghost use Rattle.account_text.specs.Passwd.{passwd_name, IsSoundPasswd};
ghost use Rattle.account_text.specs.Table.{are_distinct};

use crate::group::GroupRow;
use crate::passwd::PasswdRow;
use std::cmp::Ordering;
use switch_names::{Listed, Text};

/// Compares two rows by id, and then by name.
fn compare(id: u32, name: &Text, other_id: u32, other_name: &Text) -> Ordering
    ensures { result ≡ by_id (id, name.now) (other_id, other_name.now) }
{
    match id.cmp(&other_id) {
        Ordering::Equal => name.cmp(other_name),
        order => order,
    }
}

/// User accounts in the order of their ids, and of their names where ids are equal.
pub fn passwd_in_order(rows: Listed<PasswdRow>) -> Listed<PasswdRow>
    ensures order { are_distinct (map passwd_name rows) ≡ true → IsInOrder passwd_key rows result }
    ensures sound { IsSoundPasswd rows → IsSoundPasswd result }
{
    let mut rows = rows.into_vec();
    rows.sort_unstable_by(|row, other| compare(row.uid, &row.name, other.uid, &other.name));
    Listed::from_vec(rows)
}

/// Groups in the order of their ids, and of their names where ids are equal.
pub fn group_in_order(rows: Listed<GroupRow>) -> Listed<GroupRow>
    ensures order { are_distinct (map group_name rows) ≡ true → IsInOrder group_key rows result }
    ensures sound { IsSoundGroup rows → IsSoundGroup result }
{
    let mut rows = rows.into_vec();
    rows.sort_unstable_by(|row, other| compare(row.gid, &row.name, other.gid, &other.name));
    Listed::from_vec(rows)
}

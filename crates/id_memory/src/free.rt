//! The search for a free id.
ghost use Rattle.std.specs.Prelude.{◌≡◌, ◌+◌, ◌-◌, ◌<◌, ◌≤◌, length, find, reverse};
ghost use Rattle.std.specs.List.{range_with_len};
ghost use Rattle.id_memory.specs.Free.{is_free, numbers_towards};

/// The first free id from one up to another.
fn first_upwards(taken: &[bool], from: u32, to: u32) -> Option<u32>
    requires order { from ≤ to }
    requires within { to < length taken.now }
    ensures { result ≡ find (is_free taken.now) (range_with_len from (to + 1 - from)) }
{
    for id in from..=to {
        if !taken[id as usize] {
            return Some(id);
        }
    }
    None
}

/// The first free id from one down to another.
fn first_downwards(taken: &[bool], from: u32, to: u32) -> Option<u32>
    requires order { to ≤ from }
    requires within { from < length taken.now }
    ensures { result ≡ find (is_free taken.now) (reverse (range_with_len to (from + 1 - to))) }
{
    for id in (to..=from).rev() {
        if !taken[id as usize] {
            return Some(id);
        }
    }
    None
}

/// The first id from `from` towards `to` that isn't taken, where `taken` says of each id whether it is.
pub fn free_id(taken: &[bool], from: u32, to: u32) -> Option<u32>
    requires from { from < length taken.now }
    requires to { to < length taken.now }
    ensures { result ≡ find (is_free taken.now) (numbers_towards from to) }
{
    if from <= to {
        first_upwards(taken, from, to)
    } else {
        first_downwards(taken, from, to)
    }
}

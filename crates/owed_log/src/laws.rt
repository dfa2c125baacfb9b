//! What holds of the lists of a tree.
ghost use Rattle.owed_log.specs.Lengths.{RoomyClearLaw, RoomyRecordLaw, ShortRecordLaw};
ghost use Rattle.owed_log.specs.Laws.{ClearLaw, ClearedLaw, FileLaw, OneListsLaw, PreparedLaw, RecordLaw, RecordedLaw, SomeListsLaw};

/// Each world has its lists, whatever stands in their places.
pub fn each_world_has_lists()
    ensures { SomeListsLaw }
{}

/// A world has one set of lists.
pub fn one_set_of_lists()
    ensures { OneListsLaw }
{}

/// What is prepared to be appended can be: it has bytes, and a file stands at the place of the log.
pub fn what_is_prepared_can_be_appended()
    ensures { PreparedLaw }
{}

/// At whatever moment a record is cut, each list is its old or its recorded one: first the units to start, then those to restart,
/// then those to reload.
pub fn lists_are_recorded_in_order()
    ensures { RecordLaw }
{}

/// What was recorded is read, from a log that is absent or whole, and no leaf of an older program's lists stands.
pub fn lists_are_read_as_recorded()
    ensures { RecordedLaw }
{}

/// At whatever moment a list is cleared, the lists are as they were, or that one is empty.
pub fn a_list_is_cleared_alone()
    ensures { ClearLaw }
{}

/// Once a list is cleared it is empty, and the others are read as they were.
pub fn the_others_stay()
    ensures { ClearedLaw }
{}

/// Where something is recorded, the log is a file.
pub fn what_is_recorded_has_a_file()
    ensures { FileLaw }
{}

/// At whatever moment a record is cut, nothing is too long to be read again that wasn't.
pub fn a_record_stays_short()
    ensures { ShortRecordLaw }
{}

/// Once lists are recorded, the log leaves room for the blocks that clear two of them.
pub fn a_record_leaves_room()
    ensures { RoomyRecordLaw }
{}

/// At whatever moment a list is cleared, the log takes no more than 16 bytes of its room.
pub fn a_clear_takes_little_room()
    ensures { RoomyClearLaw }
{}

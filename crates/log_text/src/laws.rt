//! What holds of the log.
ghost use Rattle.log_text.specs.Laws.{ClearLaw, OneLogLaw, RecordLaw, SomeLogLaw, TornLaw};

/// A text has one reading as a log.
pub fn one_reading()
    ensures { OneLogLaw }
{}

/// A whole log to which any part of some blocks is appended has the first of these blocks, and then a torn tail.
pub fn a_torn_append_keeps_blocks()
    ensures { TornLaw }
{}

/// Whatever part of the recorded lists was appended, each list is its old or its recorded one, in order.
pub fn lists_are_recorded_in_order()
    ensures { RecordLaw }
{}

/// Each text has a reading as a log.
pub fn some_reading()
    ensures { SomeLogLaw }
{}

/// Whatever part of an empty block was appended, the lists are as they were, or that one is empty.
pub fn a_list_is_cleared()
    ensures { ClearLaw }
{}

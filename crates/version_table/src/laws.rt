//! A law of tables, for callers that argue about all writes of the volume. The function does nothing.

ghost use Rattle.version_table.specs.Laws.{KeptWritesGoOn};

/// A table's writes lead from the volume at its forgotten front to the volume after any number of them.
pub fn kept_writes_go_on()
    ensures { KeptWritesGoOn }
{}

// What holds of records in whole lines, as a statement on a function that does nothing.
ghost use Rattle.record.specs.Laws.{WayRound};

// The line of an answer that tells a record is read back as that record.
pub fn records_read_back()
    ensures { WayRound }
{}

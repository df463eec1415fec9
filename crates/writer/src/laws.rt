// What holds of canonical lines, as statements on functions that do nothing.
ghost use Rattle.writer.specs.Laws.{ReadsBack, OneMessage, WritesAgain};

// The canonical line of every message that can be sent means just that message.
pub fn canonical_reads_back()
    ensures { ReadsBack }
{}

// No two messages have the same canonical line.
pub fn one_message_a_line()
    ensures { OneMessage }
{}

// What a line means has a canonical line, which is no longer than the line was with its check.
pub fn read_writes_again()
    ensures { WritesAgain }
{}

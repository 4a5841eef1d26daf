// A parse error: its message, and its place in the rule.
ghost use Rattle.texts.specs.Append.{Wrote};
ghost use Rattle.report.specs.Error.{message_text, error_text};

use message::ErrorRow;
use texts::{Writer, place};

// The room for a message, on the stack as the library has no heap. One of a rule that is not too long fits.
const ROOM: usize = 1024;

// The lines of an error row: the message, the line of the rule and the mark below it.
pub fn write_error(rule: &[u8], row: ErrorRow, out: &mut Writer<'_>)
    ensures { Wrote (error_text rule.now row.form row.expected row.first row.end) out.old out.new }
{
    write_message(rule, row, out);
    out.append(b"\n");
    place::write_place(rule, row.first, row.end, out);
}

// The message, on one line.
fn write_message(rule: &[u8], row: ErrorRow, out: &mut Writer<'_>)
    ensures { Wrote (message_text rule.now row.form row.expected row.first row.end) out.old out.new }
{
    let mut space = [0u8; ROOM];
    match message::write_message(rule, row, &mut space) {
        Some(n) => out.write_shown(&space[..n]),
        None => out.append(b"a message too long to show"),
    }
}

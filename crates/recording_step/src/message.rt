// Session recordings: carries a message out, and writes the line that it prints. The rule is
// specs/Fields.antt.
ghost use Rattle.std.specs.Prelude.{◌≡◌, ◌≤◌, length};
ghost use Rattle.rules.specs.Recording.{message_call};
ghost use Rattle.record.specs.Memory.{memories};
ghost use Rattle.recording_texts.specs.Texts.{line_size};
ghost use Rattle.recording_step.specs.Fields.{CallPlayed};

use access::AccessMemory;
use board::BoardMemory;
use call_message::message;
use message_answer::ANSWER_BYTES;
use record::RecordMemory;
use recording_lines::print_message;
use wire::byte_at;

// Carries out a message field with these status words, and writes its line over the start of `line`. Gives
// the line's length.
pub(crate) fn message_line(
    board: &BoardMemory,
    access: &AccessMemory,
    records: &mut RecordMemory,
    body: &[u8],
    status: &[u32],
    line: &mut [u8],
) -> usize
    requires { line_size ≤ length line.old }
    ensures { CallPlayed (memories board.now access.now records.old)
        (message_call body.now status.now) line.old
        (memories board.now access.now records.new) line.new result }
{
    let mut answer = [0u8; ANSWER_BYTES];
    let sent = body.get(1..).unwrap_or(&[]);
    let channel = byte_at(body, 0);
    let told = message(board, access, records, channel, sent, status, &mut answer);
    let written = told.written;
    print_message(line, told, &answer[..written])
}

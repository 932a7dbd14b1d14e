// Session recordings: a whole field carried out by its tag. The rule is `carry_out` of
// rules/specs/Recording.antt; specs/Fields.antt says it of the lent memories.
#![tactic(auto)]

mod message;

ghost use Rattle.std.specs.Prelude.{◌≡◌, false, List, ℕ, ◌≤◌, length, eqb};
ghost use Rattle.rules.specs.Recording.{message_tag, status_tag, field_of};
ghost use Rattle.recording_texts.specs.Texts.{line_size};
ghost use Rattle.recording_step.specs.SessionMemory.{session_memories, memories_in, SameMemory};
ghost use Rattle.recording_step.specs.Fields.{FieldPlayed};

use crate::message::message_line;
use access::AccessMemory;
use board::BoardMemory;
use call_offer::{offer_block, offer_board, offer_list};
use record::RecordMemory;
use recording_fields::{
    StatusWords, TAG_BLOCK, TAG_BOARD, TAG_LIST, TAG_MESSAGE, TAG_STATUS, take_words,
};
use recording_lines::{print_block, print_board, print_list};
use recording_texts::LINE_BYTES;

// The ABI bytes that a recorded block must have.
const ABI_MAJOR: u8 = 0;

const ABI_MINOR: u8 = 1;

// What a session keeps: board, access list, records and status words, in memory that the caller lends; and how
// many of the words stand.
#[derive(Drop)]
pub struct SessionMemory<'a> {
    pub board: &'a mut BoardMemory,
    pub access: &'a mut AccessMemory,
    pub records: &'a mut RecordMemory,
    pub words: &'a mut StatusWords,
    pub standing: u8,
}

// Carries out a field that is neither a message nor status words, and writes its line over the start of `line`.
// Gives the line's length: 0 for a tag that is none, which does nothing.
fn play_offer(
    board: &mut BoardMemory,
    access: &mut AccessMemory,
    tag: u8,
    body: &[u8],
    line: &mut [u8],
) -> usize
    requires line_size_in_bounds { line_size ≤ length line.old }
    requires message_tag_value { (eqb tag message_tag ≡ false) × (eqb tag status_tag ≡ false) }
    ensures { (records words : List ℕ) (stand : ℕ) →
        FieldPlayed (session_memories board.old access.old records words stand)
        (field_of tag body.now) line.old
        (session_memories board.new access.new records words stand) line.new result }
{
    if tag == TAG_LIST {
        return print_list(line, offer_list(board, access, body));
    }
    if tag == TAG_BLOCK {
        return print_block(line, offer_block(board, access, ABI_MAJOR, ABI_MINOR, body));
    }
    if tag == TAG_BOARD {
        return print_board(line, offer_board(board, access, body));
    }
    0
}

impl SessionMemory<'_> {
    // Carries out a whole field, and writes the line that it prints, if any, over the start of `line`. Gives the
    // line's length. Where there is no room for a line, nothing is carried out. A message is tested first, since most
    // fields are one.
    pub fn play_field(&mut self, tag: u8, body: &[u8], line: &mut [u8]) -> usize
        ensures same_memory { SameMemory self.old self.new }
        ensures played { FieldPlayed (memories_in self.old) (field_of tag body.now) line.old
            (memories_in self.new) line.new result }
    {
        if line.len() < LINE_BYTES {
            return 0;
        }
        if tag == TAG_MESSAGE {
            let status = &self.words[..];
            let standing = self.standing as usize;
            return message_line(
                self.board,
                self.access,
                self.records,
                body,
                &status[..standing],
                line,
            );
        }
        if tag == TAG_STATUS {
            let taken = take_words(body, self.words);
            self.standing = taken as u8;
            return 0;
        }
        play_offer(self.board, self.access, tag, body, line)
    }
}

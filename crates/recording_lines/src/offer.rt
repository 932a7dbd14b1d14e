// The texts of offers that a session prints: the line of a list, of a block and of a board description. The
// rules are specs/Offers.antt. Any buffer is taken.
ghost use Rattle.std.specs.Prelude.{◌++◌, ◌≡◌, ◌+◌, ◌≤◌, length};
ghost use Rattle.recording_texts.specs.Names.{text_size};
ghost use Rattle.recording_texts.specs.Texts.{line_size, laid};
ghost use Rattle.rules.specs.Recording.{list_word, block_word, board_word};
ghost use Rattle.recording_lines.specs.Offers.{PrintedOffer};

use crate::message::append;
use recording_texts::{LINE_BYTES, verdict_text};
use rules::Verdict;

// Lays a word over the start of the line, and a text behind it. Gives the place behind them.
#[inline(always)]
fn append_both(line: &mut [u8], word: &[u8], text: &[u8]) -> usize
    requires { length word.now + length text.now ≤ length line.old }
    ensures value { result ≡ length (word.now ++ text.now) }
    ensures line_after { line.new ≡ laid line.old 0 (word.now ++ text.now) }
{
    let after_word = append(line, 0, word);
    append(line, after_word, text)
}

// The line of an offer, which begins with `word`. Gives its length: 0 where there is no room, and nothing is
// written. A text of three or four bytes, as all have but the loop's, is laid without a call of `memcpy`; the others
// are copied out first, so that the text of these two can stay in registers.
#[inline(always)]
fn print_offer(line: &mut [u8], word: &[u8], verdict: Verdict) -> usize
    requires { length word.now + text_size ≤ line_size }
    ensures { PrintedOffer line.old word.now verdict line.new result }
{
    if line.len() < LINE_BYTES {
        return 0;
    }
    let text = verdict_text(verdict);
    match text.count {
        3 => append_both(line, word, &text.bytes[..3]),
        4 => append_both(line, word, &text.bytes[..4]),
        count => {
            let bytes = text.bytes;
            append_both(line, word, &bytes[..count])
        }
    }
}

// The line of a list. Gives its length: 0 where there is no room, and nothing is written.
pub fn print_list(line: &mut [u8], verdict: Verdict) -> usize
    ensures { PrintedOffer line.old list_word verdict line.new result }
{
    print_offer(line, b"list ", verdict)
}

// The line of a block, as of a list.
pub fn print_block(line: &mut [u8], verdict: Verdict) -> usize
    ensures { PrintedOffer line.old block_word verdict line.new result }
{
    print_offer(line, b"block ", verdict)
}

// The line of a board description, as of a list.
pub fn print_board(line: &mut [u8], verdict: Verdict) -> usize
    ensures { PrintedOffer line.old board_word verdict line.new result }
{
    print_offer(line, b"board ", verdict)
}

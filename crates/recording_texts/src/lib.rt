// What a session prints, as text: digits, the names of outcomes and verdicts, the fixed lines, and the room
// that any line fits in. The rules are in specs/.
#![tactic(auto)]

mod digit;
mod names;
mod verdict;

pub use digit::{digit_count, hex_digit};
pub use names::{LINE_BYTES, bad_line, cut_line, outcome_name};
pub use verdict::verdict_text;

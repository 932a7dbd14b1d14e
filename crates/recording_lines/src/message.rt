// The line that a message prints, laid over the start of a lent buffer. The rule is `message_line` of
// rules/specs/Recording.antt. Text is laid piece by piece: each from a place on, giving the place behind it.
ghost use Rattle.std.specs.Prelude.{◌++◌, ◌∷◌, [], ◌≡◌, ◌&&◌, leb, ◌+◌, ◌*◌, ◌≤◌, ◌<◌, length};
ghost use Rattle.rules.specs.Outcome.{outcome_number};
ghost use Rattle.rules.specs.Message.{largest_answer};
ghost use Rattle.rules.specs.Text.{decimal_of, hex_of, answer_text};
ghost use Rattle.recording_texts.specs.Texts.{line_size, laid, has_room, printed, Printed};
ghost use Rattle.rules.specs.Recording.{outcome_text, message_line};

use message_answer::ANSWER_BYTES;
use recording_texts::{LINE_BYTES, digit_count, hex_digit, outcome_name};
use rules::{Outcome, Report};

// Lays `bytes` over the line. By a loop: `copy_from_slice` would make the archive for recordings need `memmove`.
pub(crate) fn append(line: &mut [u8], at: usize, bytes: &[u8]) -> usize
    requires { at + length bytes.now ≤ length line.old }
    ensures value { result ≡ at + length bytes.now }
    ensures line_after { line.new ≡ laid line.old at bytes.now }
{
    for (i, byte) in bytes.iter().enumerate() {
        line[at + i] = *byte;
    }
    at + bytes.len()
}

// Lays the decimal digits of a number over the line, from the last down to the first.
fn lay_digits(line: &mut [u8], at: usize, number: u32, count: usize)
    requires count_value { count ≡ length (decimal_of number) }
    requires count_in_bounds { at + count ≤ length line.old }
    ensures { line.new ≡ laid line.old at (decimal_of number) }
{
    let mut rest = number;
    for i in (0..count).rev() {
        line[at + i] = 48 + (rest % 10) as u8;
        rest /= 10;
    }
}

// Lays bytes over the line in hexadecimal, two digits for each.
fn append_hex(line: &mut [u8], at: usize, bytes: &[u8]) -> usize
    requires { at + 2 * length bytes.now ≤ length line.old }
    ensures value { result ≡ at + length (hex_of bytes.now) }
    ensures line_after { line.new ≡ laid line.old at (hex_of bytes.now) }
{
    for (i, byte) in bytes.iter().enumerate() {
        line[at + 2 * i] = hex_digit(*byte / 16);
        line[at + 2 * i + 1] = hex_digit(*byte);
    }
    at + 2 * bytes.len()
}

// Lays a number in decimal over the line, and a space behind it.
fn append_digits(line: &mut [u8], at: usize, number: u32) -> usize
    requires { at + 11 ≤ length line.old }
    ensures value { result ≡ at + length (decimal_of number ++ (32 ∷ [])) }
    ensures line_after { line.new ≡ laid line.old at (decimal_of number ++ (32 ∷ [])) }
{
    let count = digit_count(number);
    lay_digits(line, at, number, count);
    line[at + count] = b' ';
    at + count + 1
}

// The same; a number below ten, as most are, is one digit.
fn append_number(line: &mut [u8], at: usize, number: u32) -> usize
    requires { at + 11 ≤ length line.old }
    ensures value { result ≡ at + length (decimal_of number ++ (32 ∷ [])) }
    ensures line_after { line.new ≡ laid line.old at (decimal_of number ++ (32 ∷ [])) }
{
    if number < 10 {
        line[at] = 48 + number as u8;
        line[at + 1] = b' ';
        return at + 2;
    }
    append_digits(line, at, number)
}

// Lays an answer over the line: in hexadecimal, or `-` where there is none.
fn append_answer(line: &mut [u8], at: usize, bytes: &[u8]) -> usize
    requires { at + 2 * length bytes.now < length line.old }
    ensures value { result ≡ at + length (answer_text bytes.now) }
    ensures line_after { line.new ≡ laid line.old at (answer_text bytes.now) }
{
    if bytes.len() == 0 {
        return append(line, at, b"-");
    }
    append_hex(line, at, bytes)
}

// The line of a message.
fn write_line(line: &mut [u8], outcome: Outcome, checks: u32, micros: u32, bytes: &[u8]) -> usize
    requires line_size_in_bounds { line_size ≤ length line.old }
    requires bytes_len_bound { length bytes.now ≤ largest_answer }
    ensures value { result ≡ length (outcome_text (outcome_number outcome) checks micros bytes.now) }
    ensures upper_bound { result ≤ line_size }
    ensures line_after { line.new ≡ laid line.old 0 (outcome_text (outcome_number outcome) checks micros bytes.now) }
{
    let name = outcome_name(outcome);
    let after_name = append(line, 0, &name);
    let after_checks = append_number(line, after_name, checks);
    let after_micros = append_number(line, after_checks, micros);
    let after_answer = append_answer(line, after_micros, bytes);
    append(line, after_answer, b"\n")
}

// The line of a message, of what the call reports and the bytes of its answer. Gives its length: 0
// where there is no room or the answer is too long, and nothing is written.
pub fn print_message(line: &mut [u8], told: Report, bytes: &[u8]) -> usize
    ensures { Printed line.old
        (printed (has_room line.old && leb (length bytes.now) largest_answer) (message_line told bytes.now))
        line.new result }
{
    if line.len() < LINE_BYTES {
        return 0;
    }
    if ANSWER_BYTES < bytes.len() {
        return 0;
    }
    let outcome = told.outcome;
    write_line(line, outcome, told.checks, told.micros, bytes)
}

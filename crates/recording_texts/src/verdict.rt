// What is printed of a verdict, with the end of the line behind it: its name, and with B8 the loop's host in
// decimal. The rules are specs/Names.antt. Any verdict is taken.
ghost use Rattle.std.specs.Prelude.{◌++◌, ◌∷◌, [], ◌≡◌, ◌≤◌, length};
ghost use Rattle.rules.specs.Verdict.{reported_host, verdict_number};
ghost use Rattle.rules.specs.Text.{verdict_letter, verdict_line};
ghost use Rattle.recording_texts.specs.Names.{loop_line, padded, text_size};

use result_numbers::verdict_number;
use rules::{Fault, Verdict};

// The bytes that the text of any verdict fits in.
const TEXT_BYTES: usize = 8;

// A text, and how many bytes it has. The others are 0. A buffer of fixed size, since there is no heap here.
#[derive(Clone, Copy)]
pub struct Text {
    pub bytes: [u8; TEXT_BYTES],
    pub count: usize,
}

impl Text {
    // The text of these bytes.
    fn of<const N: usize>(text: [u8; N]) -> Text
        requires { N ≤ text_size }
        ensures bytes_value { result.bytes ≡ padded text.entry }
        ensures count_value { result.count ≡ length text.entry }
    {
        let mut bytes = [0; TEXT_BYTES];
        bytes[..N].copy_from_slice(&text);
        Text { bytes, count: N }
    }
}

// The letter of a verdict that is a refusal, by its number.
fn verdict_letter(number: u32) -> u8
    ensures { result ≡ verdict_letter number }
{
    match number {
        0..=99 => b'A',
        100..=199 => b'B',
        _ => b'D',
    }
}

// B8 and its host.
fn loop_text(host: u8) -> Text
    ensures bytes_value { result.bytes ≡ padded (loop_line host) }
    ensures count_value { result.count ≡ length (loop_line host) }
{
    let ones = b'0' + host % 10;
    if host < 10 {
        return Text::of([b'B', b'8', b' ', ones, b'\n']);
    }
    let tens = b'0' + host / 10 % 10;
    if host < 100 {
        return Text::of([b'B', b'8', b' ', tens, ones, b'\n']);
    }
    let hundreds = b'0' + host / 100;
    Text::of([b'B', b'8', b' ', hundreds, tens, ones, b'\n'])
}

// Any verdict. B10 is the one name of three characters. Inlined, so that the text stays in registers until it is
// printed.
#[inline(always)]
pub fn verdict_text(verdict: Verdict) -> Text
    ensures bytes_value { result.bytes ≡ padded (verdict_line (verdict_number verdict) (reported_host verdict)) }
    ensures count_value { result.count ≡ length (verdict_line (verdict_number verdict) (reported_host verdict)) }
{
    let Err(fault) = verdict else {
        return Text::of(*b"OK\n");
    };
    match fault {
        Fault::B8(host) => loop_text(host),
        Fault::B10 => Text::of(*b"B10\n"),
        _ => {
            let number = verdict_number(verdict);
            let letter = verdict_letter(number);
            let digit = b'0' + (number % 10) as u8;
            Text::of([letter, digit, b'\n'])
        }
    }
}

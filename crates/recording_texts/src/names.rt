// The texts that a session prints: an outcome's name, and what a bad and a cut record print. And the room that
// any line fits in. The rules are specs/Texts.antt.
ghost use Rattle.std.specs.Prelude.{◌++◌, ◌∷◌, [], ◌≡◌};
ghost use Rattle.rules.specs.Outcome.{outcome_number};
ghost use Rattle.rules.specs.Text.{outcome_name};
ghost use Rattle.rules.specs.Recording.{bad_line, cut_line};

use result_numbers::outcome_number;
use rules::Outcome;

// The bytes that any line fits in.
pub const LINE_BYTES: usize = 96;

// An outcome's name, and a space behind it.
pub fn outcome_name(outcome: Outcome) -> [u8; 3]
    ensures { result ≡ outcome_name (outcome_number outcome) ++ (32 ∷ []) }
{
    match outcome_number(outcome) {
        0 => *b"OK ",
        number @ 1..=99 => [b'N', b'0' + number as u8, b' '],
        number => [b'R', b'0' + (number - 100) as u8, b' '],
    }
}

// What a bad record prints.
pub fn bad_line() -> [u8; 11]
    ensures { result ≡ bad_line }
{
    *b"bad record\n"
}

// What a field that is cut off prints.
pub fn cut_line() -> [u8; 11]
    ensures { result ≡ cut_line }
{
    *b"cut record\n"
}

// Numbers as digits, in ASCII: how many decimal ones a number has, and a hexadecimal one. The rules are
// rules/specs/Text.antt. Any number is taken.
ghost use Rattle.std.specs.Prelude.{◌≡◌, ◌%◌, ◌≤◌, length};
ghost use Rattle.rules.specs.Text.{decimal_of, glyph};

// How many decimal digits a number has.
pub fn digit_count(number: u32) -> usize
    ensures value { result ≡ length (decimal_of number) }
    ensures upper_bound { result ≤ 10 }
{
    if number == 0 {
        return 1;
    }
    number.ilog10() as usize + 1
}

// The last hexadecimal digit of a number, in lower case. By arithmetic: with a table of the sixteen glyphs an
// answer of eight bytes took 69 instructions more.
pub fn hex_digit(number: u8) -> u8
    ensures { result ≡ glyph (number % 16) }
{
    let d = number % 16;
    let gap = if d < 10 { 0 } else { 39 };
    48 + d + gap
}

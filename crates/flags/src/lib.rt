// Flag words: which bits may be named, by class and by word; a set word and a clear word judged; and the word
// that they leave. Once for config and control. The rules are rules/specs/Flags.antt and Board.antt.
#![tactic(auto)]

ghost use Rattle.std.specs.Prelude.{◌≡◌, cond, eqb};
ghost use Rattle.std.specs.Int.Bits.{bit_or};
ghost use Rattle.rules.specs.Board.{config_word, mask_of};
ghost use Rattle.rules.specs.Flags.{keeps_vector, flags_good, new_word};

// The words of a record that hold flags, as places in a row of the table.
pub const CONFIG: usize = 0;

pub const CONTROL: usize = 1;

// The flag bits that may be named, indexed first by class and then by word.
const MASKS: [[u32; 2]; 2] = [[0xFF03, 0x3], [0x10F, 0x103]];

// Bit 28 of config's clear word: the vector fields are neither checked nor stored.
const KEEP_VECTOR: u32 = 0x10000000;

// The flag bits that may be named in `word`, by a processor's class.
#[tactic(auto, unfolding(rules::specs::Board::mask_of))]
fn mask_of(class: usize, word: usize) -> u32
    ensures { result ≡ mask_of class word }
{
    MASKS
        .get(class)
        .and_then(|masks| masks.get(word))
        .copied()
        .unwrap_or(0)
}

// The bits that a clear word may name: the mask, and for config bit 28 too.
fn clear_mask(word: usize, mask: u32) -> u32
    ensures { result ≡ cond (eqb word config_word) (bit_or mask 0x10000000) mask }
{
    if word == CONFIG {
        mask | KEEP_VECTOR
    } else {
        mask
    }
}

// Whether a set word and a clear word name only bits that may be named, and none in both.
pub fn flags_good(class: usize, word: usize, set: u32, clear: u32) -> bool
    ensures { result ≡ flags_good class word set clear }
{
    let mask = mask_of(class, word);
    let clearable = clear_mask(word, mask);
    ((set & mask) == set) & ((clear & clearable) == clear) & ((set & clear) == 0)
}

// Whether the clear word of set config says that the vector is neither checked nor stored.
pub fn keeps_vector(clear: u32) -> bool
    ensures { result ≡ keeps_vector clear }
{
    clear / KEEP_VECTOR % 2 == 1
}

// A word with the set bits added and the clear bits removed.
pub fn new_word(old: u32, set: u32, clear: u32) -> u32
    ensures { result ≡ new_word old set clear }
{
    (old | set) & !clear
}

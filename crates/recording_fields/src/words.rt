// The status words that a field of a recording holds. The rule is `words_in` of
// rules/specs/Recording.antt.
ghost use Rattle.std.specs.Prelude.{◌≡◌, ◌≤◌, length, take};
ghost use Rattle.rules.specs.Answer.{buffer_after};
ghost use Rattle.rules.specs.Recording.{word_limit, words_in};

use wire::joined;

// As many status words as the largest field holds, 1,020 bytes.
pub const STATUS_WORDS: usize = 255;

pub type StatusWords = [u32; STATUS_WORDS];

// Takes the status words of a field's body to the start of `words`, as many as there is room for, and
// gives their number. A body of 1,020 bytes fills it.
pub fn take_words(body: &[u8], words: &mut StatusWords) -> usize
    ensures value { result ≡ length (words_in body.now) }
    ensures upper_bound { result ≤ word_limit }
    ensures words_after { words.new ≡ buffer_after (words_in body.now) words.old }
{
    for (i, bytes) in body.chunks_exact(4).take(STATUS_WORDS).enumerate() {
        words[i] = joined(bytes[0], bytes[1], bytes[2], bytes[3]);
    }
    STATUS_WORDS.min(body.len() / 4)
}

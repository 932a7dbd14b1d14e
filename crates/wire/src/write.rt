// How a lent buffer is written: a 32-bit number at any place, and at its start other bytes, or its own from
// further on. The rules are rules/specs/Bytes.antt and rules/specs/Answer.antt: all other bytes keep their
// values.
ghost use Rattle.std.specs.Prelude.{◌≡◌, cond, ◌-◌, length, take, drop, leb};
ghost use Rattle.rules.specs.Answer.{buffer_after};
ghost use Rattle.rules.specs.Bytes.{with_u32};

// Puts a number at place `at`, lowest byte first. Where its four bytes do not fit there, nothing is
// written.
#[tactic(auto, using(crate::proofs::Numbers::u32_unfit, crate::proofs::Numbers::u32_mid_put))]
pub fn put_u32(bytes: &mut [u8], at: usize, number: u32)
    ensures { bytes.new ≡ with_u32 bytes.old at number }
{
    if bytes.len() <= at {
        return;
    }
    if bytes.len() - at < 4 {
        return;
    }
    bytes[at..at + 4].copy_from_slice(&number.to_le_bytes());
}

// Puts `bytes` at the start of `buffer` and gives their number. Where they do not fit, nothing is
// written and the number is 0. A loop, as `copy_from_slice` would call `memmove`, which firmware may not have.
pub fn put(buffer: &mut [u8], bytes: &[u8]) -> usize
    ensures value { result ≡ cond (leb (length bytes.now) (length buffer.old)) (length bytes.now) 0 }
    ensures buffer_after { buffer.new ≡ cond (leb (length bytes.now) (length buffer.old))
        (buffer_after bytes.now buffer.old) buffer.old }
{
    if buffer.len() < bytes.len() {
        return 0;
    }
    for (i, byte) in bytes.iter().enumerate() {
        buffer[i] = *byte;
    }
    bytes.len()
}

// Moves the bytes of `buffer` from `from` up to `end` to its start, and gives their number: none where
// the buffer does not reach that far. All behind them are as before.
pub fn move_down(buffer: &mut [u8], from: usize, end: usize) -> usize
    ensures value { result ≡ cond (leb end (length buffer.old)) (end - from) 0 }
    ensures buffer_after { buffer.new ≡ buffer_after (take result (drop from buffer.old)) buffer.old }
{
    if buffer.len() < end {
        return 0;
    }
    if end < from {
        return 0;
    }
    buffer.copy_within(from..end, 0);
    end - from
}

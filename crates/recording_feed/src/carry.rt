// The carry: the bytes of a record that is not whole yet, which wait for the next piece. The rules are
// specs/Carry.antt.
ghost use Rattle.std.specs.Prelude.{◌≡◌, ◌+◌, ◌-◌, ◌≤◌, min, length, take, drop};
ghost use Rattle.rules.specs.Bytes.{field_head};
ghost use Rattle.recording_texts.specs.Texts.{laid};
ghost use Rattle.recording_feed.specs.Carry.{InBounds, Settled, Kept};

use recording_fields::length_good;
use wire::{FIELD_HEAD, put, u16_at};

// "The carry buffer has 1,023 bytes, enough for the largest field with its tag and length."
pub const CARRY_BYTES: usize = 1023;

pub type CarryBuffer = [u8; CARRY_BYTES];

// Fills the carry, which holds `held` bytes, up to `size` bytes from the piece, as far as the piece goes, and
// gives how many were copied.
fn fill(carry: &mut CarryBuffer, held: usize, size: usize, piece: &[u8], at: usize) -> usize
    requires { (size ≤ length carry.old) × InBounds carry.old held piece.now at }
    ensures value { result ≡ min (size - held) (length piece.now - at) }
    ensures carry_after { carry.new ≡ laid carry.old held (take result (drop at piece.now)) }
{
    if size <= held {
        return 0;
    }
    let count = (size - held).min(piece.len() - at);
    let end = at + count;
    put(&mut carry[held..], &piece[at..end])
}

// Completes the body of the record whose tag and length the carry holds, where these are good, as far as the
// piece goes. Gives how many bytes were copied.
fn settle_body(carry: &mut CarryBuffer, held: usize, piece: &[u8], at: usize) -> usize
    requires { (field_head ≤ held) × InBounds carry.old held piece.now at }
    ensures { Settled carry.old held piece.now at carry.new result }
{
    let length = u16_at(carry, 1);
    if !length_good(carry[0], length) {
        return 0;
    }
    fill(carry, held, FIELD_HEAD + length as usize, piece, at)
}

// Completes the record whose beginning the carry holds, as far as the piece goes: first its tag and length,
// then its body. Gives how many bytes were copied.
pub(crate) fn settle(carry: &mut CarryBuffer, held: usize, piece: &[u8], at: usize) -> usize
    requires { InBounds carry.old held piece.now at }
    ensures { Settled carry.old held piece.now at carry.new result }
{
    let first = fill(carry, held, FIELD_HEAD, piece, at);
    let there = held + first;
    if there < FIELD_HEAD {
        return first;
    }
    first + settle_body(carry, there, piece, at + first)
}

// Takes the rest of the piece, in which no record is whole and none is bad, to the carry, and gives how many
// bytes were copied.
pub(crate) fn keep(carry: &mut CarryBuffer, held: usize, piece: &[u8], at: usize) -> usize
    requires { (at ≤ length piece.now) × (held + (length piece.now - at) ≤ length carry.old) }
    ensures { Kept carry.old held piece.now at carry.new result }
{
    let rest = piece.len() - at;
    fill(carry, held, held + rest, piece, at)
}

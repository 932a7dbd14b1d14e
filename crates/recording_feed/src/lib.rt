// Recordings in pieces (document 02, L12): a session is fed piece by piece, its lines go to a lent output, and
// its end is announced. Nothing is read or written here. The rules are specs/Feed.antt, over those of crate
// recording_stream.
#![tactic(auto)]

mod carry;
mod cursor;

ghost use Rattle.std.specs.Prelude.{◌≡◌, Bool, false, ◌+◌, ◌-◌, ◌≤◌, ◌<◌, length, drop};
ghost use Rattle.rules.specs.Answer.{buffer_after};
ghost use Rattle.rules.specs.Recording.{Session, found, is_whole, is_bad, last_line};
ghost use Rattle.recording_texts.specs.Texts.{line_size};
ghost use Rattle.recording_stream.specs.Turn.{turn};
ghost use Rattle.recording_step.specs.SessionMemory.{memories_in, SameMemory};
ghost use Rattle.recording_feed.specs.Pending.{pending};
ghost use Rattle.recording_feed.specs.Carry.{InBounds};
ghost use Rattle.recording_feed.specs.Feed.{Stopped, Passed, FeedCall, EndCall};

use crate::carry::keep;
use crate::cursor::{Sight, next_record, part};
pub use carry::{CARRY_BYTES, CarryBuffer};
use recording_fields::find;
use recording_step::SessionMemory;
use recording_texts::{LINE_BYTES, bad_line, cut_line};
use rules::Found;
use wire::{move_down, put};

// What a call leaves: the bytes of the output that it used, how many bytes the carry holds, how far the piece
// is used up, whether the recording is over, and whether a record waits for room.
#[derive(Clone, Copy)]
pub struct Fed {
    pub used: usize,
    pub held: usize,
    pub at: usize,
    pub over: bool,
    pub full: bool,
}

// What the announced end leaves: the bytes of the output that it used, whether the recording is over, and
// whether its line waits for room.
#[derive(Clone, Copy)]
pub struct Ended {
    pub used: usize,
    pub over: bool,
    pub full: bool,
}

// Ends a call where no whole record comes next, with `used` bytes of the output printed. The rest of the piece
// goes to the carry; behind a bad record nothing is looked at.
fn stop(
    bad: bool,
    carry: &mut CarryBuffer,
    held: usize,
    piece: &[u8],
    at: usize,
    out: &mut [u8],
    used: usize,
) -> Fed
    requires held_in_bounds { (used ≤ length out.old) × InBounds carry.old held piece.now at }
    requires at_value { (is_whole (found (pending carry.old held piece.now at)) ≡ false) × (bad ≡ is_bad (found (pending carry.old held piece.now at))) }
    ensures { (s : Session) →
        Stopped s (turn (length out.old - used) s (pending carry.old held piece.now at))
        piece.now out.old used carry.new out.new result }
{
    if !bad {
        let moved = keep(carry, held, piece, at);
        return Fed {
            used,
            held: held + moved,
            at: at + moved,
            over: false,
            full: false,
        };
    }
    if out.len() - used < LINE_BYTES {
        return Fed {
            used,
            held,
            at,
            over: false,
            full: true,
        };
    }
    let printed = put(&mut out[used..], &bad_line());
    Fed {
        used: used + printed,
        held: 0,
        at: piece.len(),
        over: true,
        full: false,
    }
}

// Where a call goes on behind a record: how many bytes the carry holds, and the place in the piece.
#[derive(Clone, Copy)]
pub struct Place {
    pub held: usize,
    pub at: usize,
}

// Passes over a record that ends at `end` of the carry or of the piece. What else the carry holds moves to its
// start: nothing, as long as only this crate writes to it.
fn skip(carry: &mut CarryBuffer, held: usize, at: usize, carried: bool, end: usize) -> Place
    requires { held ≤ length carry.old }
    ensures { Passed carry.old held at carried end carry.new result }
{
    if carried {
        let left = move_down(carry, end, held);
        return Place { held: left, at };
    }
    Place { held, at: end }
}

// Carries out every record that is whole and for whose line there is room.
fn feed_all(
    session: &mut SessionMemory,
    carry: &mut CarryBuffer,
    held: usize,
    piece: &[u8],
    at: usize,
    out: &mut [u8],
) -> Fed
    requires { InBounds carry.old held piece.now at }
    ensures same_memory { SameMemory session.old session.new }
    ensures fed { FeedCall (memories_in session.old)
        carry.old held false piece.now at out.old
        (memories_in session.new)
        carry.new out.new result }
{
    let mut kept = held;
    let mut next = at;
    let mut used = 0;
    loop {
        let comes = next_record(carry, kept, piece, next);
        kept = comes.held;
        next = comes.at;
        let Sight::Record(tag, cursor) = comes.sight else {
            let bad = matches!(comes.sight, Sight::Broken);
            return stop(bad, carry, kept, piece, next, out, used);
        };
        if out.len() - used < LINE_BYTES {
            return Fed {
                used,
                held: kept,
                at: next,
                over: false,
                full: true,
            };
        }
        let body = part(carry, piece, cursor);
        used += session.play_field(tag, body, &mut out[used..]);
        let place = skip(carry, kept, next, cursor.carried, cursor.end);
        kept = place.held;
        next = place.at;
    }
}

// Writes what a recording that ends here prints over the start of `out`, which has room for any line, and gives
// how many bytes that is.
fn last_line(found: Found, out: &mut [u8]) -> usize
    requires { line_size ≤ length out.old }
    ensures value { result ≡ length (last_line found) }
    ensures out_after { out.new ≡ buffer_after (last_line found) out.old }
{
    match found {
        Found::Whole(_, _) => 0,
        Found::Bad => put(out, &bad_line()),
        Found::Partial => put(out, &cut_line()),
        Found::Nothing => 0,
    }
}

// Feeds a piece from place `at` on, behind the `held` bytes of the carry: carries out every record that is whole
// and for whose line there is room, and prints to the start of `out`. Any content is taken; of `held` and `at`
// no more than there is. Once the recording is over nothing is done.
pub fn feed(
    session: &mut SessionMemory,
    carry: &mut CarryBuffer,
    held: usize,
    over: bool,
    piece: &[u8],
    at: usize,
    out: &mut [u8],
) -> Fed
    ensures same_memory { SameMemory session.old session.new }
    ensures fed { FeedCall (memories_in session.old)
        carry.old held over piece.now at out.old
        (memories_in session.new)
        carry.new out.new result }
{
    if over {
        return Fed {
            used: 0,
            held: 0,
            at: piece.len(),
            over: true,
            full: false,
        };
    }
    let kept = held.min(CARRY_BYTES);
    let next = at.min(piece.len());
    feed_all(session, carry, kept, piece, next, out)
}

// Announces the end: where the carry holds a record that is not whole, `cut record` goes to the start of `out`.
// With too little room for a line it waits; once the recording is over nothing is done.
pub fn finish(carry: &CarryBuffer, held: usize, over: bool, out: &mut [u8]) -> Ended
    ensures { EndCall carry.now held over out.old out.new result }
{
    if over {
        return Ended {
            used: 0,
            over: true,
            full: false,
        };
    }
    if out.len() < LINE_BYTES {
        return Ended {
            used: 0,
            over: false,
            full: true,
        };
    }
    let kept = held.min(CARRY_BYTES);
    let used = last_line(find(&carry[..kept], 0), out);
    Ended {
        used,
        over: true,
        full: false,
    }
}

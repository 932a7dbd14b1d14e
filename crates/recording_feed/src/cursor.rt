// Where a record stands: in the carry or in the piece. What comes next is found first, as a cursor; the part
// of one of the two lent slices is taken by it. The rules are specs/Pending.antt.
ghost use Rattle.std.specs.Prelude.{◌≡◌, ◌≤◌, length, drop};
ghost use Rattle.rules.specs.Recording.{found};
ghost use Rattle.recording_feed.specs.Pending.{part_by, sight_in};
ghost use Rattle.recording_feed.specs.Carry.{InBounds, Comes};

use crate::carry::{CarryBuffer, settle};
use recording_fields::find;
use rules::Found;
use wire::FIELD_HEAD;

// The place of a record's body, from `start` up to `end`: in the carry, or else in the piece.
#[derive(Clone, Copy)]
pub struct Cursor {
    pub carried: bool,
    pub start: usize,
    pub end: usize,
}

// What comes next in the bytes that are there.
#[derive(Clone, Copy)]
pub enum Sight {
    // A whole record: its tag, and where its body stands.
    Record(u8, Cursor),
    // A bad record.
    Broken,
    // No whole record yet.
    More,
}

// The part of the carry or of the piece that a cursor names, as far as its bytes are there.
pub(crate) fn part<'a>(carry: &'a [u8], piece: &'a [u8], cursor: Cursor) -> &'a [u8]
    ensures { result.now ≡ part_by carry.now piece.now cursor }
{
    let bytes = if cursor.carried { carry } else { piece };
    let end = cursor.end.min(bytes.len());
    bytes.get(cursor.start..end).unwrap_or(&[])
}

// What stands at place `at` of the carry or of the piece.
#[inline(always)]
fn seen(bytes: &[u8], at: usize, carried: bool) -> Sight
    ensures { result ≡ sight_in carried at (found (drop at bytes.now)) }
{
    match find(bytes, at) {
        Found::Whole(tag, length) => {
            let start = at + FIELD_HEAD;
            Sight::Record(
                tag,
                Cursor {
                    carried,
                    start,
                    end: start + length as usize,
                },
            )
        }
        Found::Bad => Sight::Broken,
        Found::Partial => Sight::More,
        Found::Nothing => Sight::More,
    }
}

// What comes next, and where: how many bytes the carry holds then, and the place in the piece.
#[derive(Clone, Copy)]
pub struct Next {
    pub sight: Sight,
    pub held: usize,
    pub at: usize,
}

// Finds what comes next: in the piece where nothing is held, as most often, and else in the carry, to which the
// record that begins there is completed first.
pub(crate) fn next_record(carry: &mut CarryBuffer, held: usize, piece: &[u8], at: usize) -> Next
    requires { InBounds carry.old held piece.now at }
    ensures { Comes carry.old held piece.now at carry.new result }
{
    if held == 0 {
        let sight = seen(piece, at, false);
        return Next { sight, held, at };
    }
    let moved = settle(carry, held, piece, at);
    let kept = held + moved;
    let sight = seen(&carry[..kept], 0, true);
    Next {
        sight,
        held: kept,
        at: at + moved,
    }
}

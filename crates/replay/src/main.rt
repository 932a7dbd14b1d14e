// Replays a recorded session: reads it piece by piece from standard input, feeds each piece, and writes the
// lines to standard output. What is printed is worked out and proved in crate recording_feed; this program
// reads, feeds and writes. No contract can say what is read or written.
#![tactic(auto)]

ghost use Rattle.std.specs.Prelude.{◌≤◌};
ghost use Rattle.replay.specs.Stand.{Within};

use access::ACCESS_WORDS;
use board::BOARD_BYTES;
use record::RECORD_WORDS;
use recording_feed::{CARRY_BYTES, CarryBuffer, feed, finish};
use recording_fields::STATUS_WORDS;
use recording_step::SessionMemory;
use std::io::{Read, Write};

// How many bytes are read, and how many may be printed, at once.
const BUFFER_BYTES: usize = 65536;

type Buffer = [u8; BUFFER_BYTES];

// Where a session stands between two turns: how many bytes the carry holds, the place in the piece and its end,
// whether a record waits for room, and whether the session goes on.
#[derive(Clone, Copy)]
pub struct Stand {
    pub held: usize,
    pub at: usize,
    pub end: usize,
    pub full: bool,
    pub goes: bool,
}

// Feeds what is left of the piece, and writes the lines that it prints. A write that fails ends the session.
#[tactic(auto, using(recording_feed::proofs::Stops::fed_within))]
fn feed_piece<W: Write>(
    to: &mut W,
    session: &mut SessionMemory,
    carry: &mut CarryBuffer,
    stand: Stand,
    input: &Buffer,
    output: &mut Buffer,
) -> Stand
    requires { Within stand }
    ensures { Within result }
{
    let end = stand.end;
    let all = &input[..];
    let fed = feed(
        session,
        carry,
        stand.held,
        false,
        &all[..end],
        stand.at,
        output,
    );
    let used = fed.used;
    let lines = &output[..];
    let written = to.write_all(&lines[..used]).is_ok();
    Stand {
        held: fed.held,
        at: fed.at,
        end,
        full: fed.full,
        goes: written & !fed.over,
    }
}

// Announces the end of the session, and writes what that prints. Nothing follows, so a write that fails ends
// nothing more.
#[tactic(auto, using(recording_feed::proofs::Stops::ended_within))]
fn announce<W: Write>(to: &mut W, carry: &CarryBuffer, held: usize, output: &mut Buffer) {
    let ended = finish(carry, held, false, output);
    let used = ended.used;
    let lines = &output[..];
    let _ = to.write_all(&lines[..used]);
}

// One turn: a new piece is read where the last one is used up. At the end of the input the end is announced, and
// a read that fails counts as that end.
fn turn<R: Read, W: Write>(
    from: &mut R,
    to: &mut W,
    session: &mut SessionMemory,
    carry: &mut CarryBuffer,
    stand: Stand,
    input: &mut Buffer,
    output: &mut Buffer,
) -> Stand
    requires { Within stand }
    ensures { Within result }
{
    if stand.full {
        return feed_piece(to, session, carry, stand, input, output);
    }
    let end = match from.read(input) {
        Ok(count) => count,
        Err(_) => 0,
    };
    let next = Stand {
        held: stand.held,
        at: 0,
        end,
        full: false,
        goes: 0 < end,
    };
    if end == 0 {
        announce(to, carry, stand.held, output);
        return next;
    }
    feed_piece(to, session, carry, next, input, output)
}

// Document 01's board stands until a board description is taken.
fn main(rt: HostRuntime) {
    let mut from = rt.stdin();
    let mut to = rt.stdout();
    let mut board = [0u8; BOARD_BYTES];
    let mut access = [0u16; ACCESS_WORDS];
    let mut records = [0u32; RECORD_WORDS];
    let mut words = [0u32; STATUS_WORDS];
    let mut carry = [0u8; CARRY_BYTES];
    let mut input = [0u8; BUFFER_BYTES];
    let mut output = [0u8; BUFFER_BYTES];
    board_setup::start(&mut board);
    let mut session = SessionMemory {
        board: &mut board,
        access: &mut access,
        records: &mut records,
        words: &mut words,
        standing: 0,
    };
    let mut stand = Stand {
        held: 0,
        at: 0,
        end: 0,
        full: false,
        goes: true,
    };
    for _ in 0..u64::MAX {
        if !stand.goes {
            return;
        }
        stand = turn(
            &mut from,
            &mut to,
            &mut session,
            &mut carry,
            stand,
            &mut input,
            &mut output,
        );
    }
}

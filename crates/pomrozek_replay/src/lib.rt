// Recordings in pieces for C: a session over memory that the caller lends, fed piece by piece.
// include/pomrozek_replay.h declares the functions and says who owns what.
#![tactic(auto)]

ghost use Rattle.std.specs.Prelude.{[], ◌∷◌, ◌≡◌, ◌≤◌, replicate};
ghost use Rattle.rules.specs.Description.{ours};
ghost use Rattle.board.specs.Memory.{board_bytes};
ghost use Rattle.access.specs.Memory.{access_size};
ghost use Rattle.record.specs.Memory.{record_size};
ghost use Rattle.recording_stream.specs.Stream.{carry_size};
ghost use Rattle.pomrozek_replay.specs.Exported.{stream_size, held_in, standing_in, over_in, over_word, fed_number, lending, ExportedFeed, ExportedEnd};

use access::{ACCESS_WORDS, AccessMemory};
use board::BoardMemory;
use board_setup::start;
use record::{RECORD_WORDS, RecordMemory};
use recording_feed::{CarryBuffer, feed, finish};
use recording_fields::{STATUS_WORDS, StatusWords};
use recording_step::SessionMemory;

// A stream between two calls: how many bytes the carry holds, how many status words stand, and whether the
// recording is over, 0 for not.
const STREAM_WORDS: usize = 3;

pub type StreamMemory = [u32; STREAM_WORDS];

// What a call gives: the piece is used up, a record waits for room, or the recording is over.
const FED: u32 = 0;

const FULL: u32 = 1;

const OVER: u32 = 2;

// How many bytes the carry holds.
fn held_in(stream: &StreamMemory) -> usize
    ensures { result ≡ held_in stream.now }
{
    stream[0] as usize
}

// How many status words stand, of which there are no more than the memory holds.
fn standing_in(stream: &StreamMemory) -> u8
    ensures { result ≡ standing_in stream.now }
{
    stream[1].min(STATUS_WORDS as u32) as u8
}

// Whether the recording is over.
fn is_over(stream: &StreamMemory) -> bool
    ensures { result ≡ over_in stream.now }
{
    stream[2] != 0
}

// Stores a stream: how many bytes the carry holds, 1,023 at most, how many words stand, and whether it is over.
fn store_stream(stream: &mut StreamMemory, held: usize, words: u8, over: bool)
    requires { held ≤ carry_size }
    ensures { stream.new ≡ held ∷ words ∷ over_word over ∷ [] }
{
    *stream = [held as u32, u32::from(words), u32::from(over)];
}

// Stores how many bytes of the piece were taken, and how many were printed.
fn store_progress(progress: &mut [u64; 2], taken: usize, printed: usize)
    ensures { progress.new ≡ taken ∷ printed ∷ [] }
{
    *progress = [taken as u64, printed as u64];
}

// The number of what a call leaves.
fn call_number(over: bool, full: bool) -> u32
    ensures { result ≡ fed_number over full }
{
    if over {
        return OVER;
    }
    if full {
        return FULL;
    }
    FED
}

// Begins a session: document 01's board, nothing accepted, all records free and zero, nothing held.
pub fn pomrozek_replay_start(
    board: &mut BoardMemory,
    access: &mut AccessMemory,
    records: &mut RecordMemory,
    stream: &mut StreamMemory,
)
    ensures board_after { board.new ≡ board_bytes ours }
    ensures access_after { access.new ≡ replicate access_size 0 }
    ensures records_after { records.new ≡ replicate record_size 0 }
    ensures stream_after { stream.new ≡ replicate stream_size 0 }
{
    start(board);
    *access = [0; ACCESS_WORDS];
    *records = [0; RECORD_WORDS];
    *stream = [0; STREAM_WORDS];
}

// Feeds a piece and gives what the call leaves. The bytes taken of the piece and the bytes printed go to
// `progress`.
pub fn pomrozek_replay_feed(
    board: &mut BoardMemory,
    access: &mut AccessMemory,
    records: &mut RecordMemory,
    words: &mut StatusWords,
    carry: &mut CarryBuffer,
    stream: &mut StreamMemory,
    piece: &[u8],
    out: &mut [u8],
    progress: &mut [u64; 2],
) -> u32
    ensures { ExportedFeed
        (lending board.old access.old records.old words.old carry.old stream.old)
        piece.now out.old
        (lending board.new access.new records.new words.new carry.new stream.new)
        out.new progress.new result }
{
    let held = held_in(stream);
    let over = is_over(stream);
    let mut session = SessionMemory {
        board,
        access,
        records,
        words,
        standing: standing_in(stream),
    };
    let fed = feed(&mut session, carry, held, over, piece, 0, out);
    store_stream(stream, fed.held, session.standing, fed.over);
    store_progress(progress, fed.at, fed.used);
    call_number(fed.over, fed.full)
}

// Announces the end of the recording and gives what the call leaves. The bytes printed go to `progress`, behind a
// 0.
pub fn pomrozek_replay_end(
    carry: &CarryBuffer,
    stream: &mut StreamMemory,
    out: &mut [u8],
    progress: &mut [u64; 2],
) -> u32
    ensures { ExportedEnd carry.now stream.old out.old stream.new out.new progress.new result }
{
    let held = held_in(stream);
    let over = is_over(stream);
    let ended = finish(carry, held, over, out);
    stream[2] = u32::from(ended.over);
    store_progress(progress, 0, ended.used);
    call_number(ended.over, ended.full)
}

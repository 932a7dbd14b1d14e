// The three functions of crate pomrozek_replay under their C names: the static library that
// include/pomrozek_replay.h declares. Each is one call, and promises what that call promises.
#![tactic(auto)]

ghost use Rattle.std.specs.Prelude.{◌≡◌, replicate};
ghost use Rattle.rules.specs.Description.{ours};
ghost use Rattle.board.specs.Memory.{board_bytes};
ghost use Rattle.access.specs.Memory.{access_size};
ghost use Rattle.record.specs.Memory.{record_size};
ghost use Rattle.pomrozek_replay.specs.Exported.{stream_size, lending, ExportedFeed, ExportedEnd};

use access::AccessMemory;
use board::BoardMemory;
use pomrozek_replay::StreamMemory;
use record::RecordMemory;
use recording_feed::CarryBuffer;
use recording_fields::StatusWords;

// Begins a session: document 01's board, nothing accepted, all records free and zero, nothing held.
#[unsafe(no_mangle)]
pub extern "C" fn pomrozek_replay_start(
    board: &mut BoardMemory,
    access: &mut AccessMemory,
    records: &mut RecordMemory,
    stream: &mut StreamMemory,
)
    ensures board_after { board.new ≡ board_bytes ours }
    ensures access_after { access.new ≡ replicate access_size 0 }
    ensures records_after { records.new ≡ replicate record_size 0 }
    ensures stream_after { stream.new ≡ replicate stream_size 0 }
{
    pomrozek_replay::pomrozek_replay_start(board, access, records, stream)
}

// Feeds a piece and gives what the call leaves. The bytes taken of the piece and the bytes printed go to
// `progress`.
#[unsafe(no_mangle)]
pub extern "C" fn pomrozek_replay_feed(
    board: &mut BoardMemory,
    access: &mut AccessMemory,
    records: &mut RecordMemory,
    words: &mut StatusWords,
    carry: &mut CarryBuffer,
    stream: &mut StreamMemory,
    piece: &[u8],
    out: &mut [u8],
    progress: &mut [u64; 2],
) -> u32
    ensures { ExportedFeed
        (lending board.old access.old records.old words.old carry.old stream.old)
        piece.now out.old
        (lending board.new access.new records.new words.new carry.new stream.new)
        out.new progress.new result }
{
    pomrozek_replay::pomrozek_replay_feed(
        board, access, records, words, carry, stream, piece, out, progress,
    )
}

// Announces the end of the recording and gives what the call leaves. The bytes printed go to `progress`, behind a
// 0.
#[unsafe(no_mangle)]
pub extern "C" fn pomrozek_replay_end(
    carry: &CarryBuffer,
    stream: &mut StreamMemory,
    out: &mut [u8],
    progress: &mut [u64; 2],
) -> u32
    ensures { ExportedEnd carry.now stream.old out.old stream.new out.new progress.new result }
{
    pomrozek_replay::pomrozek_replay_end(carry, stream, out, progress)
}

// The five functions of crate pomrozek under their C names: the static library that include/pomrozek.h
// declares. Each is one call, and promises what that call promises.
#![tactic(auto)]

ghost use Rattle.std.specs.Prelude.{◌≡◌};
ghost use Rattle.rules.specs.Description.{ours};
ghost use Rattle.board.specs.Memory.{board_bytes};
ghost use Rattle.record.specs.Memory.{memories};
ghost use Rattle.call_message.specs.Calls.{lending};
ghost use Rattle.pomrozek.specs.Exported.{ExportedBlock, ExportedBoard, ExportedList, ExportedMessage};

use access::AccessMemory;
use board::BoardMemory;
use record::RecordMemory;

// Fills the board memory with document 01's board, which stands until a description is taken.
#[unsafe(no_mangle)]
pub extern "C" fn pomrozek_start(board: &mut BoardMemory)
    ensures { board.new ≡ board_bytes ours }
{
    pomrozek::pomrozek_start(board)
}

// Offers a board description and gives the verdict's number: 0 taken, 1 for A1, 200 + k for Dk.
#[unsafe(no_mangle)]
pub extern "C" fn pomrozek_board(
    board: &mut BoardMemory,
    access: &AccessMemory,
    description: &[u8],
) -> u32
    ensures { ExportedBoard board.old access.now description.now
        board.new result }
{
    pomrozek::pomrozek_board(board, access, description)
}

// Offers an access list and gives the verdict's number: 0 accepted, k for Ak.
#[unsafe(no_mangle)]
pub extern "C" fn pomrozek_list(board: &BoardMemory, access: &mut AccessMemory, list: &[u8]) -> u32
    ensures { ExportedList board.now access.old list.now
        access.new result }
{
    pomrozek::pomrozek_list(board, access, list)
}

// Offers a security board configuration that must have these ABI bytes, and gives the verdict's number: 0
// accepted, k for Ak, 100 + k for Bk. The host of B8 goes to `found`, and 0 with any other verdict.
#[unsafe(no_mangle)]
pub extern "C" fn pomrozek_block(
    board: &BoardMemory,
    access: &mut AccessMemory,
    major: u8,
    minor: u8,
    block: &[u8],
    found: &mut [u32; 1],
) -> u32
    ensures { ExportedBlock board.now access.old major minor
        block.now access.new found.new result }
{
    pomrozek::pomrozek_block(board, access, major, minor, block, found)
}

// Carries out one message and gives the outcome's number: 0 OK, k for Nk, 100 + k for Rk. The checks,
// the microseconds, the number of bytes written and the role's number go to `report`.
#[unsafe(no_mangle)]
pub extern "C" fn pomrozek_message(
    board: &BoardMemory,
    access: &AccessMemory,
    records: &mut RecordMemory,
    channel: u8,
    request: &[u8],
    status: &[u32],
    answer: &mut [u8],
    report: &mut [u32; 4],
) -> u32
    ensures { ExportedMessage
        (memories board.now access.now records.old)
        (lending channel request.now status.now answer.old)
        records.new answer.new report.new result }
{
    pomrozek::pomrozek_message(
        board, access, records, channel, request, status, answer, report,
    )
}

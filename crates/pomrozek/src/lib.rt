// The manager for firmware in C: five functions over memory that the caller lends. include/pomrozek.h
// declares them and says who owns what. Numbers are the papers': 0 for OK or accepted.
#![tactic(auto)]

ghost use Rattle.std.specs.Prelude.{◌≡◌, ◌≤◌};
ghost use Rattle.rules.specs.Description.{ours};
ghost use Rattle.rules.specs.Message.{largest_answer};
ghost use Rattle.board.specs.Memory.{board_bytes};
ghost use Rattle.record.specs.Memory.{memories};
ghost use Rattle.call_message.specs.Calls.{lending};
ghost use Rattle.pomrozek.specs.Exported.{ExportedBlock, ExportedBoard, ExportedList, ExportedMessage};

use access::AccessMemory;
use board::BoardMemory;
use board_setup::start;
use call_message::message;
use call_offer::{offer_block, offer_board, offer_list};
use record::RecordMemory;
use result_numbers::{outcome_number, reported_host, role_number, verdict_number};

// Fills the board memory with document 01's board, which stands until a description is taken.
pub fn pomrozek_start(board: &mut BoardMemory)
    ensures { board.new ≡ board_bytes ours }
{
    start(board)
}

// Offers a board description and gives the verdict's number: 0 taken, 1 for A1, 200 + k for Dk.
pub fn pomrozek_board(board: &mut BoardMemory, access: &AccessMemory, description: &[u8]) -> u32
    ensures { ExportedBoard board.old access.now description.now
        board.new result }
{
    verdict_number(offer_board(board, access, description))
}

// Offers an access list and gives the verdict's number: 0 accepted, k for Ak.
pub fn pomrozek_list(board: &BoardMemory, access: &mut AccessMemory, list: &[u8]) -> u32
    ensures { ExportedList board.now access.old list.now
        access.new result }
{
    verdict_number(offer_list(board, access, list))
}

// Offers a security board configuration that must have these ABI bytes, and gives the verdict's number: 0
// accepted, k for Ak, 100 + k for Bk. The host of B8 goes to `found`, and 0 with any other verdict.
pub fn pomrozek_block(
    board: &BoardMemory,
    access: &mut AccessMemory,
    major: u8,
    minor: u8,
    block: &[u8],
    found: &mut [u32; 1],
) -> u32
    ensures { ExportedBlock board.now access.old major minor
        block.now access.new found.new result }
{
    let verdict = offer_block(board, access, major, minor, block);
    *found = [u32::from(reported_host(verdict))];
    verdict_number(verdict)
}

// The number of bytes written as the width of the report's words; no answer is longer than the largest.
fn narrow(written: usize) -> u32
    requires { written ≤ largest_answer }
    ensures { result ≡ written }
{
    written as u32
}

// Carries out one message and gives the outcome's number: 0 OK, k for Nk, 100 + k for Rk. The checks,
// the microseconds, the number of bytes written and the role's number go to `report`.
pub fn pomrozek_message(
    board: &BoardMemory,
    access: &AccessMemory,
    records: &mut RecordMemory,
    channel: u8,
    request: &[u8],
    status: &[u32],
    answer: &mut [u8],
    report: &mut [u32; 4],
) -> u32
    ensures { ExportedMessage
        (memories board.now access.now records.old)
        (lending channel request.now status.now answer.old)
        records.new answer.new report.new result }
{
    let told = message(board, access, records, channel, request, status, answer);
    *report = [
        told.checks,
        told.micros,
        narrow(told.written),
        role_number(told.role),
    ];
    outcome_number(told.outcome)
}

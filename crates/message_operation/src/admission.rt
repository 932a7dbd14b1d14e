// The rows of document 01's outcome table that several types test alike, N4, N6 and N7. Where they are passed, a
// function gives what the type's own function goes on with; else the first row that refuses. The rules are
// specs/Admission.antt.
ghost use Rattle.std.specs.Prelude.{◌≡◌};
ghost use Rattle.board.specs.Memory.{board_in};
ghost use Rattle.message_operation.specs.Admission.{controlled, permitted_row, row_named};

use crate::row_in;
use access_rights::{is_controller, is_permitted};
use board::{BoardMemory, ROWS};
use record::record_at;
use rules::{Record, Refusal};

// The processor that a message names: its row and its record.
#[derive(Clone, Copy)]
pub struct Subject {
    pub row: u8,
    pub state: Record,
}

// N4 and N6: the row of the processor named, in a message whose structure has `size` bytes.
#[tactic(auto, unfolding(crate::specs::Admission::row_named, rules::specs::Table::first_of, rules::specs::Board::on_board))]
pub fn row_named(board: &BoardMemory, message: &[u8], size: usize) -> Result<u8, Refusal>
    ensures { result ≡ row_named (board_in board.now) message.now size }
{
    if message.len() < size {
        return Err(Refusal::N4);
    }
    let row = row_in(board, message);
    if ROWS <= row {
        return Err(Refusal::N6);
    }
    Ok(row)
}

// N4, N6 and N7 of a type that the controller alone may send.
#[tactic(auto, unfolding(crate::specs::Admission::controlled, crate::specs::Admission::with_right, rules::specs::Table::first_of))]
pub fn controlled(
    board: &BoardMemory,
    records: &[u32],
    channel: u8,
    message: &[u8],
    size: usize,
) -> Result<Subject, Refusal>
    ensures { result ≡ controlled (board_in board.now) records.now channel message.now size }
{
    let row = row_named(board, message, size)?;
    let state = record_at(board, records, row);
    if !is_controller(state, channel) {
        return Err(Refusal::N7);
    }
    Ok(Subject { row, state })
}

// N4, N6 and N7 of a type that every permitted host may send.
#[tactic(auto, unfolding(crate::specs::Admission::permitted_row, crate::specs::Admission::with_right, rules::specs::Table::first_of))]
pub fn permitted_row(
    board: &BoardMemory,
    access: &[u16],
    channel: u8,
    message: &[u8],
    size: usize,
) -> Result<u8, Refusal>
    ensures { result ≡ permitted_row (board_in board.now) access.now channel message.now size }
{
    let row = row_named(board, message, size)?;
    if !is_permitted(board, access, row, u16::from(channel)) {
        return Err(Refusal::N7);
    }
    Ok(row)
}

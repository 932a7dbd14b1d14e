// The rows of document 01's outcome table that come before the type, R1 to N2: answer room, message
// length, whether a list or a block was accepted, and the sender.
ghost use Rattle.std.specs.Prelude.{◌≡◌, List, ℕ};
ghost use Rattle.rules.specs.Outcome.{OK};
ghost use Rattle.rules.specs.Table.{first_of};
ghost use Rattle.rules.specs.Message.{query};
ghost use Rattle.rules.specs.Outcome.{sender_wrong, before_type};
ghost use Rattle.board.specs.Memory.{board_in};
ghost use Rattle.access.specs.Memory.{listed_in};

use access::is_listed;
use board::{BoardMemory, is_active};
use message_answer::ANSWER_BYTES;
use message_fields::{HEADER_BYTES, HOST, MESSAGE_BYTES};
use rules::{Outcome, Refusal};
use wire::byte_at;

// N2: whether the channel host is unlike the header's host, or not one that sends.
fn sender_wrong(board: &BoardMemory, channel: u8, message: &[u8]) -> bool
    ensures { (status : List ℕ) (room : ℕ) → result ≡ sender_wrong (board_in board.now)
        (query channel message.now status room) }
{
    if channel != byte_at(message, HOST) {
        return true;
    }
    !is_active(board, channel as u16)
}

// The rows R1 to N2; OK where all are passed.
pub(crate) fn before_type(
    board: &BoardMemory,
    access: &[u16],
    channel: u8,
    message: &[u8],
    room: usize,
) -> Outcome
    ensures { (status : List ℕ) → result ≡ first_of OK (before_type (board_in board.now)
        (listed_in access.now) (query channel message.now status room)) }
{
    let length = message.len();
    if room < ANSWER_BYTES {
        return Err(Refusal::R1);
    }
    if (length < HEADER_BYTES) | (MESSAGE_BYTES < length) {
        return Err(Refusal::R2);
    }
    if !is_listed(access) {
        return Err(Refusal::N1);
    }
    if sender_wrong(board, channel, message) {
        return Err(Refusal::N2);
    }
    Ok(())
}

// One entry of a substructure: whether an entry before it has its number; and of an access list's entry,
// document 01's A5 to A7. The rules are specs/Entries.antt.
ghost use Rattle.std.specs.Prelude.{◌≡◌};
ghost use Rattle.board.specs.Memory.{board_in};
ghost use Rattle.access_list.specs.Entries.{number_before, entry_fault};

use crate::{HEAD_BYTES, MASTER, PROCESSOR};
use board::{BoardMemory, ROWS, is_active, row_of};
use rules::{Fault, Verdict};
use wire::{byte_at, u16_at};

// Whether an entry of `width` bytes before entry `e` has `number`. An entry that has a number
// but 0 is used, and names it; for 0 the answer is whether an entry before is unused.
pub fn named_before(bytes: &[u8], width: u8, e: u8, number: u8) -> bool
    ensures { result ≡ number_before width bytes.now e number }
{
    (0..usize::from(e)).any(|i| byte_at(bytes, HEAD_BYTES + usize::from(width) * i) == number)
}

// A5 to A7 of a used entry; `named` says whether an earlier one names its processor.
#[tactic(auto, unfolding(crate::specs::Entries::entry_fault, rules::specs::Table::first_of, rules::specs::Board::on_board))]
pub(crate) fn check_entry(board: &BoardMemory, part: &[u8], named: bool) -> Verdict
    ensures { result ≡ entry_fault (board_in board.now) named part.now }
{
    if row_of(board, byte_at(part, PROCESSOR)) >= ROWS {
        return Err(Fault::A5);
    }
    if named {
        return Err(Fault::A6);
    }
    if !is_active(board, u16_at(part, MASTER)) {
        return Err(Fault::A7);
    }
    Ok(())
}

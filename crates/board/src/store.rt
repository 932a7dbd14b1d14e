// The stores into the board memory: nothing listed, one host more, one processor more. The memory and its
// layout are specs/Memory.antt.
ghost use Rattle.std.specs.Prelude.{◌≡◌, ◌<◌};
ghost use Rattle.rules.specs.Description.{nothing_listed, board_of};
ghost use Rattle.board.specs.Memory.{board_size, board_bytes, with_host_mark, with_processor_at};
ghost use Rattle.board.specs.EmptyBoard.{clear_byte};

use crate::{BOARD_BYTES, BoardMemory, CLASSES, HOMES, PLACES, ROWS};

// The byte at place `i` of the memory of a board with nothing listed: no host, no processor, and
// each row its own home.
#[tactic(auto, unfolding(crate::specs::EmptyBoard::clear_byte))]
fn clear_byte(i: usize) -> u8
    requires { i < board_size }
    ensures { result ≡ clear_byte i }
{
    if i < PLACES {
        return 0;
    }
    if i < CLASSES {
        return ROWS;
    }
    if i < HOMES {
        return 0;
    }
    (i - HOMES) as u8
}

// Takes everything off the board, whatever the memory held.
#[tactic(auto, using(crate::proofs::EmptyBoard::clear_all))]
pub fn clear(board: &mut BoardMemory)
    ensures { board.new ≡ board_bytes (board_of nothing_listed) }
{
    for i in 0..BOARD_BYTES {
        board[i] = clear_byte(i);
    }
}

// Puts a host on the board: `mark` is 2 for a secure one and 1 for one that is not.
pub fn store_host(board: &mut BoardMemory, host: u8, mark: u8)
    ensures { board.new ≡ with_host_mark board.old host mark }
{
    board[usize::from(host)] = mark;
}

// Puts a processor on the board: its row, and the row's class and home. A row that is not there is left alone.
#[tactic(auto, unfolding(crate::specs::Memory::with_processor_at))]
pub fn store_processor(board: &mut BoardMemory, processor: u8, row: u8, class: u8, home: u8)
    ensures { board.new ≡ with_processor_at board.old processor row class home }
{
    if row < ROWS {
        let place = usize::from(row);
        board[PLACES + usize::from(processor)] = row;
        board[CLASSES + place] = class;
        board[HOMES + place] = home;
    }
}

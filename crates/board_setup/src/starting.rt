// The board of the start: document 01's, put into the board memory as its description.
ghost use Rattle.std.specs.Prelude.{◌≡◌};
ghost use Rattle.rules.specs.Description.{ours};
ghost use Rattle.board.specs.Memory.{board_bytes};

use crate::set_board;
use board::BoardMemory;

// Document 01's board: hosts 3 and 10 secure, 4, 5, 6, 12 and 13 not; the R5 processors 1 and 2,
// each alone, and the ARMv8 processors 32 and 33, one cluster.
const OURS: [u8; 59] = *b"\x01\x02\x00\x03\x01\
    \x01\x02\x00\x0a\x01\
    \x01\x02\x00\x04\x00\
    \x01\x02\x00\x05\x00\
    \x01\x02\x00\x06\x00\
    \x01\x02\x00\x0c\x00\
    \x01\x02\x00\x0d\x00\
    \x02\x03\x00\x01\x00\x00\
    \x02\x03\x00\x02\x00\x00\
    \x02\x03\x00\x20\x01\x01\
    \x02\x03\x00\x21\x01\x01";

// Puts document 01's board into the memory, whatever that held. It stands until a board is taken.
pub fn start(board: &mut BoardMemory)
    ensures { board.new ≡ board_bytes ours }
{
    let _taken = set_board(board, false, &OURS);
}

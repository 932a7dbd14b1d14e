// The board in force, read out of the lent board memory: its hosts, its processors with their rows,
// classes and homes. Each function gives what the definition of the same name in rules/specs/Board.antt
// gives, for any content of the memory and any number.
#![tactic(auto)]

mod store;

ghost use Rattle.std.specs.Prelude.{◌<◌, ◌≡◌};
ghost use Rattle.rules.specs.Board.{rows, board_host, active_host, row_of, class_at, home_at};
ghost use Rattle.board.specs.Memory.{board_in};

pub use store::{clear, store_host, store_processor};

// The board memory: tables of the hosts, of the processors' rows, and by row of classes and homes.
pub const BOARD_BYTES: usize = 576;

pub type BoardMemory = [u8; BOARD_BYTES];

// Where the tables begin; that of the hosts is the first.
const PLACES: usize = 256;

const CLASSES: usize = 512;

const HOMES: usize = 544;

// How many rows a board has: one for each of at most 32 processors.
pub const ROWS: u8 = 32;

// Whether `host` is on the board. Hosts of an access list have 16 bits and are compared as such: one
// above 255 is on no board. Host 0 is on every board.
#[tactic(auto, using(crate::proofs::Read::host_read, crate::proofs::Read::host_none), unfolding(rules::specs::Board::board_host))]
pub fn is_host(board: &BoardMemory, host: u16) -> bool
    ensures { result ≡ board_host (board_in board.now) host }
{
    if host == 0 {
        return true;
    }
    let place = usize::from(host);
    if place < PLACES {
        return board[place] != 0;
    }
    false
}

// Whether `host` is on the board and not 0, the management firmware, which never sends or controls.
#[tactic(auto, unfolding(rules::specs::Board::active_host))]
pub fn is_active(board: &BoardMemory, host: u16) -> bool
    ensures { result ≡ active_host (board_in board.now) host }
{
    (host != 0) & is_host(board, host)
}

// The row of `processor`, or a number from `ROWS` on where it is not on the board. The only way to a row.
#[tactic(auto, using(crate::proofs::Read::row_read))]
pub fn row_of(board: &BoardMemory, processor: u8) -> u8
    ensures { result ≡ row_of (board_in board.now) processor }
{
    board[PLACES + usize::from(processor)]
}

// The class of the processor at `row`: 0 for R5, 1 for ARMv8.
#[tactic(auto, using(crate::proofs::Read::class_read, crate::proofs::Read::class_past))]
pub fn class_at(board: &BoardMemory, row: u8) -> usize
    ensures { result ≡ class_at (board_in board.now) row }
{
    if row < ROWS {
        return usize::from(board[CLASSES + usize::from(row)] % 2);
    }
    0
}

// The row where the control word of the processor at `row` is kept. The processors of an ARMv8 cluster
// have one home.
#[tactic(auto, using(crate::proofs::Read::home_read, crate::proofs::Read::home_past))]
pub fn home_at(board: &BoardMemory, row: u8) -> u8
    ensures { (result ≡ home_at (board_in board.now) row) × (result < rows) }
{
    if row < ROWS {
        return board[HOMES + usize::from(row)] % ROWS;
    }
    0
}

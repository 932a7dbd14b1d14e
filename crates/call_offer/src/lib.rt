// The offers: the board call, the list call and the block call, over memory that the caller lends. The
// start (crate board_setup) fills the board memory; access memory that is all zeros is a fresh manager's. Any
// content is a state.
#![tactic(auto)]

ghost use Rattle.call_offer.specs.Calls.{BlockCall, BoardCall, ListCall};

use access::{AccessMemory, is_listed, put_in_force};
use access_block::{HIERARCHY_PLACE, LIST_PLACE, judge_block};
use access_list::judge_list;
use board::BoardMemory;
use rules::Verdict;

// Offers a board description. Before a list or a block is accepted a good one is taken, and its board
// replaces the one before it whole; a refused one changes nothing.
pub fn offer_board(board: &mut BoardMemory, access: &AccessMemory, description: &[u8]) -> Verdict
    ensures { BoardCall board.old access.now description.now board.new result }
{
    board_setup::set_board(board, is_listed(&access[..]), description)
}

// Offers an access list, which is judged first. The first good one is taken and is in force from then on,
// unless a block was taken before; a refused one changes nothing.
pub fn offer_list(board: &BoardMemory, access: &mut AccessMemory, list: &[u8]) -> Verdict
    ensures { ListCall board.now access.old list.now access.new result }
{
    judge_list(board, is_listed(&access[..]), list)?;
    put_in_force(board, access, list);
    Ok(())
}

// Offers a security board configuration, which must have the ABI bytes `major` and `minor`. The first list or
// block that is good is taken; of a block its list is then in force, as the lone list would be. A refused one
// changes nothing.
pub fn offer_block(
    board: &BoardMemory,
    access: &mut AccessMemory,
    major: u8,
    minor: u8,
    block: &[u8],
) -> Verdict
    ensures { BlockCall board.now access.old major minor block.now access.new result }
{
    judge_block(board, is_listed(&access[..]), major, minor, block)?;
    put_in_force(board, access, &block[LIST_PLACE..HIERARCHY_PLACE]);
    Ok(())
}

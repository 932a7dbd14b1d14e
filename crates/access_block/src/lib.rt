// Why a security board configuration is refused: document 02's A1, B1 and B2, the list's A3 to A8, the
// hierarchy's B3 to B8, then B9 and B10. The rules are rules/specs/Block.antt. Each part is judged as its own
// part of the block.
#![tactic(auto)]

ghost use Rattle.std.specs.Prelude.{◌≡◌};
ghost use Rattle.rules.specs.Verdict.{Accepted};
ghost use Rattle.rules.specs.Table.{first_of};
ghost use Rattle.rules.specs.Block.{otp_table, block_verdict};
ghost use Rattle.board.specs.Memory.{board_in};

use access_hierarchy::{HIERARCHY_BYTES, judge_hierarchy};
use access_list::{LIST_BYTES, MAGIC_PLACE, SIZE_PLACE, judge_list};
use board::BoardMemory;
use rules::{Fault, Verdict};
use wire::{byte_at, u16_at};

// The block, 431 bytes: the parts one behind the other after the two ABI bytes.
pub const LIST_PLACE: usize = 2;

pub const HIERARCHY_PLACE: usize = LIST_PLACE + LIST_BYTES;

const OTP_PLACE: usize = HIERARCHY_PLACE + HIERARCHY_BYTES;

const OTP_BYTES: usize = 69;

const OTP_MAGIC: u16 = 0x4081;

pub const BLOCK_BYTES: usize = OTP_PLACE + OTP_BYTES;

// B9 and B10; the other bytes of the OTP part are not judged.
#[tactic(auto, unfolding(rules::specs::Block::otp_table, rules::specs::Table::first_of))]
fn check_otp(bytes: &[u8]) -> Verdict
    ensures { result ≡ first_of Accepted (otp_table bytes.now) }
{
    if u16_at(bytes, MAGIC_PLACE) != OTP_MAGIC {
        return Err(Fault::B9);
    }
    if u16_at(bytes, SIZE_PLACE) != OTP_BYTES as u16 {
        return Err(Fault::B10);
    }
    Ok(())
}

// What a block comes to, where `listed` says whether a list or a block was accepted before, and `major` and
// `minor` are the ABI bytes that it must have. The first fault is reported, and with B8 the loop's host.
#[tactic(auto, unfolding(rules::specs::Block::block_verdict, rules::specs::Block::block_table, rules::specs::Table::first_of))]
pub fn judge_block(board: &BoardMemory, listed: bool, major: u8, minor: u8, block: &[u8]) -> Verdict
    ensures { result ≡ block_verdict (board_in board.now) listed major minor block.now }
{
    if listed {
        return Err(Fault::A1);
    }
    if block.len() != BLOCK_BYTES {
        return Err(Fault::B1);
    }
    if byte_at(block, 0) != major || byte_at(block, 1) != minor {
        return Err(Fault::B2);
    }
    judge_list(board, false, &block[LIST_PLACE..HIERARCHY_PLACE])?;
    judge_hierarchy(board, &block[HIERARCHY_PLACE..OTP_PLACE])?;
    check_otp(&block[OTP_PLACE..BLOCK_BYTES])
}

// The host hierarchy of a security board configuration: why it is refused, document 02's B3 to B8, in its
// order. The rules are rules/specs/Hierarchy.antt. Loops are found by module loops.
#![tactic(auto)]

mod loops;

ghost use Rattle.std.specs.Prelude.{◌<◌, ◌≡◌, []};
ghost use Rattle.rules.specs.Verdict.{Accepted};
ghost use Rattle.rules.specs.Table.{first_of};
ghost use Rattle.rules.specs.Substructure.{entry_count, part_at, in_turn};
ghost use Rattle.rules.specs.Hierarchy.{pair_size, pairs, pair_table, hierarchy_table};
ghost use Rattle.board.specs.Memory.{board_in};
ghost use Rattle.access_list.specs.Entries.{parts_before};

use crate::loops::loop_host;
use access_list::{ENTRIES, HEAD_BYTES, MAGIC_PLACE, SIZE_PLACE, named_before};
use board::{BoardMemory, is_host};
use rules::{Fault, Verdict};
use wire::{byte_at, u16_at};

// The hierarchy, and one pair of it: a host, and behind it the supervisor.
pub const HIERARCHY_BYTES: usize = 68;

const HIERARCHY_MAGIC: u16 = 0x8D27;

const PAIR_BYTES: usize = 2;

// B5 to B7 of entry `e`, after the entries before it. Supervisor 0 is a board host. Of an unused entry the
// supervisor is not looked at.
#[tactic(auto, using(crate::proofs::Faults::unused_pair, crate::proofs::Faults::used_pair))]
fn check_pair(board: &BoardMemory, bytes: &[u8], e: usize) -> Verdict
    requires { e < entry_count }
    ensures { result
        ≡ first_of Accepted (pair_table (board_in board.now)
        (parts_before pair_size bytes.now e) (part_at pair_size bytes.now e)) }
{
    let at = HEAD_BYTES + PAIR_BYTES * e;
    let host = byte_at(bytes, at);
    if host == 0 {
        return Ok(());
    }
    if !is_host(board, host as u16) {
        return Err(Fault::B5);
    }
    if !is_host(board, byte_at(bytes, at + 1) as u16) {
        return Err(Fault::B6);
    }
    if named_before(bytes, PAIR_BYTES as u8, e as u8, host) {
        return Err(Fault::B7);
    }
    Ok(())
}

// B5 to B7 of each entry in turn.
fn check_pairs(board: &BoardMemory, bytes: &[u8]) -> Verdict
    ensures { result ≡ first_of Accepted (in_turn (pair_table (board_in board.now)) [] (pairs bytes.now)) }
{
    for e in 0..ENTRIES {
        check_pair(board, bytes, e)?;
    }
    Ok(())
}

// What a hierarchy comes to: the first fault, with B8 the first host in entry order that lies on a loop.
#[tactic(auto, unfolding(rules::specs::Hierarchy::hierarchy_table, rules::specs::Table::first_of))]
pub fn judge_hierarchy(board: &BoardMemory, bytes: &[u8]) -> Verdict
    ensures { result ≡ first_of Accepted (hierarchy_table (board_in board.now) bytes.now) }
{
    if u16_at(bytes, MAGIC_PLACE) != HIERARCHY_MAGIC {
        return Err(Fault::B3);
    }
    if u16_at(bytes, SIZE_PLACE) != HIERARCHY_BYTES as u16 {
        return Err(Fault::B4);
    }
    check_pairs(board, bytes)?;
    match loop_host(bytes) {
        Some(host) => Err(Fault::B8(host)),
        None => Ok(()),
    }
}

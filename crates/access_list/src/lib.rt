// The access list: why one is refused, document 01's A1 to A8, in its order. The rules are
// rules/specs/AccessList.antt. An entry is judged as its own nine-byte part of the list.
#![tactic(auto)]

mod entry;

ghost use Rattle.std.specs.Prelude.{◌≡◌};
ghost use Rattle.board.specs.Memory.{board_in};
ghost use Rattle.rules.specs.AccessList.{verdict_of};

use crate::entry::check_entry;
use board::{BoardMemory, is_host};
pub use entry::named_before;
use rules::{Fault, Verdict};
use wire::{byte_at, u16_at};

// What every substructure of a block has: a magic and its size in bytes at these places, and behind them
// so many entries.
pub const MAGIC_PLACE: usize = 0;

pub const SIZE_PLACE: usize = 2;

pub const HEAD_BYTES: usize = 4;

pub const ENTRIES: usize = 32;

// The list, and one entry of it.
pub const LIST_BYTES: usize = 292;

const LIST_MAGIC: u16 = 0xF1EA;

pub const ENTRY_BYTES: usize = 9;

// Where an entry has its processor, the recovery master and the first of three secondaries.
pub const PROCESSOR: usize = 0;

pub const MASTER: usize = 1;

pub const SECONDARIES: usize = 3;

const SECONDARY_COUNT: usize = 3;

// What a list comes to, where `listed` says whether a list or a block was accepted before. The first
// fault is reported: the search stops at the first bad secondary of the first bad entry.
#[tactic(auto, unfolding(rules::specs::AccessList::verdict_of, rules::specs::AccessList::list_table, rules::specs::AccessList::content_table, rules::specs::Table::first_of))]
pub fn judge_list(board: &BoardMemory, listed: bool, list: &[u8]) -> Verdict
    ensures { result ≡ verdict_of (board_in board.now) listed list.now }
{
    if listed {
        return Err(Fault::A1);
    }
    if list.len() != LIST_BYTES {
        return Err(Fault::A2);
    }
    if u16_at(list, MAGIC_PLACE) != LIST_MAGIC {
        return Err(Fault::A3);
    }
    if u16_at(list, SIZE_PLACE) != LIST_BYTES as u16 {
        return Err(Fault::A4);
    }
    // Not a `for`, which cannot carry the refusal that `break` leaves this one with.
    let mut e: usize = 0;
    'entries: loop {
        if e == ENTRIES {
            break 'entries Ok(());
        }
        let part = &list[HEAD_BYTES + ENTRY_BYTES * e..HEAD_BYTES + ENTRY_BYTES * e + ENTRY_BYTES];
        let processor = byte_at(part, PROCESSOR);
        if processor == 0 {
            e += 1;
            continue 'entries;
        }
        let named = named_before(list, ENTRY_BYTES as u8, e as u8, processor);
        check_entry(board, part, named)?;
        for k in 0..SECONDARY_COUNT {
            if !is_host(board, u16_at(part, SECONDARIES + 2 * k)) {
                break 'entries Err(Fault::A8);
            }
        }
        e += 1;
    }
}

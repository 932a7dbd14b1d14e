// The access memory that a list in force leaves: a mark, and the list's entries by row. The rules are
// specs/InForce.antt.
ghost use Rattle.std.specs.Prelude.{◌<◌, ◌≡◌};
ghost use Rattle.rules.specs.Substructure.{entry_count, part_at};
ghost use Rattle.rules.specs.AccessList.{entry_size};
ghost use Rattle.board.specs.Memory.{board_in};
ghost use Rattle.access.specs.InForce.{in_force, put_entry};

use crate::{ACCESS_WORDS, AccessMemory, ENTRY_WORDS, FIRST_ENTRY};
use access_list::{ENTRIES, ENTRY_BYTES, HEAD_BYTES, MASTER, PROCESSOR, SECONDARIES};
use board::{BoardMemory, ROWS, row_of};
use wire::{byte_at, u16_at};

// Puts the four words of entry `e` of a list at its processor's row. An unused one is stored nowhere.
#[tactic(auto, using(crate::proofs::InForce::put_on))]
fn store_entry(board: &BoardMemory, access: &mut AccessMemory, list: &[u8], e: usize)
    requires { e < entry_count }
    ensures { access.new
        ≡ put_entry (board_in board.now) (part_at entry_size list.now e) access.old }
{
    let from = HEAD_BYTES + ENTRY_BYTES * e;
    let processor = byte_at(list, from + PROCESSOR);
    if processor == 0 {
        return;
    }
    let row = row_of(board, processor);
    if row >= ROWS {
        return;
    }
    let at = FIRST_ENTRY + ENTRY_WORDS * usize::from(row);
    access[at] = u16_at(list, from + MASTER);
    access[at + 1] = u16_at(list, from + SECONDARIES);
    access[at + 2] = u16_at(list, from + SECONDARIES + 2);
    access[at + 3] = u16_at(list, from + SECONDARIES + 4);
}

// Puts 1 and the entries of a list into the memory, whatever it held. Past the end of the list there are
// zeros, so that every list says 32 entries.
pub fn put_in_force(board: &BoardMemory, access: &mut AccessMemory, list: &[u8])
    ensures { access.new ≡ in_force (board_in board.now) list.now }
{
    *access = [0; ACCESS_WORDS];
    access[0] = 1;
    for e in 0..ENTRIES {
        store_entry(board, access, list, e);
    }
}

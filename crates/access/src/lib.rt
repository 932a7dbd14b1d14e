// The access memory, asked whether a list was accepted, alone or in a block, and for the role of a host at a
// row; and a list put in force (module store). Its layout is specs/Memory.antt; any content of it is a state.
// Hosts are 16-bit numbers throughout.
#![tactic(auto)]

mod store;

ghost use Rattle.std.specs.Prelude.{◌≡◌, None, Some, cond};
ghost use Rattle.rules.specs.declared.Role.TheVariants.{Open};
ghost use Rattle.rules.specs.Board.{active_host};
ghost use Rattle.rules.specs.Role.{role_of};
ghost use Rattle.board.specs.Memory.{board_in};
ghost use Rattle.access.specs.Memory.{listed_in, entry_at};

use board::{BoardMemory, is_active};
use rules::Role;
pub use store::put_in_force;
use wire::item_or;

// The access memory: a mark, and four words for each row.
pub const ACCESS_WORDS: usize = 129;

pub type AccessMemory = [u16; ACCESS_WORDS];

// The first entry's place, and how many words an entry has: the master and three secondaries.
const FIRST_ENTRY: usize = 1;

const ENTRY_WORDS: usize = 4;

// Whether a list was accepted, alone or in a block.
#[tactic(auto, unfolding(crate::specs::Memory::listed_in))]
pub fn is_listed(access: &[u16]) -> bool
    ensures { result ≡ listed_in access.now }
{
    item_or(access, 0, 0) != 0
}

// The role of `host` on a processor without an entry, which is open to every board host but 0.
fn open_role(board: &BoardMemory, host: u16) -> Option<Role>
    ensures { result ≡ cond (active_host (board_in board.now) host) (Some Open) None }
{
    if is_active(board, host) {
        return Some(Role::Open);
    }
    None
}

// The role of `host` for the processor at `row`. Host 0 has none: it is never permitted, and a secondary of
// 0 is unused. By an entry the master comes first, then the lowest place.
#[tactic(auto, using(crate::proofs::Roles::roles), unfolding(crate::specs::Memory::entry_at))]
pub fn role_of(board: &BoardMemory, access: &[u16], row: u8, host: u16) -> Option<Role>
    ensures { result ≡ role_of (board_in board.now) (entry_at access.now row) host }
{
    if host == 0 {
        return None;
    }
    let at = FIRST_ENTRY + ENTRY_WORDS * usize::from(row);
    let master = item_or(access, at, 0);
    if master == host {
        return Some(Role::Master);
    }
    if master == 0 {
        return open_role(board, host);
    }
    if item_or(access, at + 1, 0) == host {
        return Some(Role::Secondary0);
    }
    if item_or(access, at + 2, 0) == host {
        return Some(Role::Secondary1);
    }
    if item_or(access, at + 3, 0) == host {
        return Some(Role::Secondary2);
    }
    None
}

// N7 of document 01: whether a sender has the right that its message asks for, by its role and the record
// of the processor that it names; and who is permitted, which handover asks of its new host too (N8). Each
// function gives what the definition of that name gives.
#![tactic(auto)]

ghost use Rattle.std.specs.Prelude.{◌≡◌};
ghost use Rattle.rules.specs.Role.{permitted};
ghost use Rattle.rules.specs.Outcome.{may_request, is_controller};
ghost use Rattle.board.specs.Memory.{board_in};
ghost use Rattle.access.specs.Memory.{entry_at};

use access::role_of;
use board::BoardMemory;
use rules::{Record, Role};

// Whether `host` controls the processor.
pub fn is_controller(state: Record, host: u8) -> bool
    ensures { result ≡ is_controller state host }
{
    state.controller == host as u32
}

// Whether `host` is permitted for the processor at `row`.
#[tactic(auto, unfolding(rules::specs::Role::permitted))]
pub fn is_permitted(board: &BoardMemory, access: &[u16], row: u8, host: u16) -> bool
    ensures { result ≡ permitted (board_in board.now) (entry_at access.now row) host }
{
    role_of(board, access, row, host).is_some()
}

// Whether a host of this role may request the processor: it is free and the host permitted, or the host is
// its recovery master, also where another controls it.
pub fn may_request(role: Option<Role>, state: Record) -> bool
    ensures { result ≡ may_request role state }
{
    ((state.controller == 0) & role.is_some()) | (role == Some(Role::Master))
}

// What the functions of the message types share: the row of the processor that a message names, and
// what a message comes to. Each type is in a crate of its own above, and the rows of document 01's
// outcome table that they test, from N4 on, are in specs/Operation.antt.
#![tactic(auto)]

mod admission;

ghost use Rattle.std.specs.Prelude.{◌≡◌};
ghost use Rattle.rules.specs.Board.{row_of};
ghost use Rattle.rules.specs.Message.{processor_of};
ghost use Rattle.board.specs.Memory.{board_in};
ghost use Rattle.message_operation.specs.Operation.{alone};

pub use admission::{Subject, controlled, permitted_row, row_named};
use board::{BoardMemory, row_of};
use message_fields::PROCESSOR;
use rules::{Outcome, Role};
use wire::byte_at;

// What a message comes to: the outcome, what a wait reports, and the sender's role in a request,
// if it has one.
#[derive(Clone, Copy)]
pub struct Decision {
    pub outcome: Outcome,
    pub checks: u32,
    pub micros: u32,
    pub role: Option<Role>,
}

// The row of the processor that a message names, or a number from `ROWS` on where it is not on the
// board.
pub fn row_in(board: &BoardMemory, message: &[u8]) -> u8
    ensures { result ≡ row_of (board_in board.now) (processor_of message.now) }
{
    row_of(board, byte_at(message, PROCESSOR))
}

// A decision with a role and no checks: a request's. Refused before N7 it has the role none.
pub fn with_role(outcome: Outcome, role: Option<Role>) -> Decision
    ensures { result ≡ record { outcome = outcome; checks = 0; micros = 0; role = role } }
{
    Decision {
        outcome,
        checks: 0,
        micros: 0,
        role,
    }
}

// A decision that reports the outcome alone: no checks, and the role none.
pub fn outcome_alone(outcome: Outcome) -> Decision
    ensures { result ≡ alone outcome }
{
    with_role(outcome, None)
}

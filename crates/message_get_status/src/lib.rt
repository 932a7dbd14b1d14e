// Get status. The function tests the rows of document 01's outcome table from N4 on, in its order; the
// rows above are passed when it is called. No record changes, so it gets none.
#![tactic(auto)]

ghost use Rattle.std.specs.Prelude.{List, ℕ};
ghost use Rattle.rules.specs.Message.{query};
ghost use Rattle.record.specs.Memory.{memories};
ghost use Rattle.rules.specs.declared.Kind.TheVariants.{GetStatus};
ghost use Rattle.message_operation.specs.Operation.{alone, Carries};

use board::BoardMemory;
use message_fields::GET_STATUS_BYTES;
use message_operation::permitted_row;
use rules::{Outcome, Refusal};

// Get status: the sender is permitted, and there is a status word. No record changes.
pub fn get_status(
    board: &BoardMemory,
    access: &[u16],
    channel: u8,
    message: &[u8],
    status: &[u32],
) -> Outcome
    ensures { (records : List ℕ) (room : ℕ) → Carries GetStatus
        (memories board.now access.now records)
        (query channel message.now status.now room) records (alone result) }
{
    permitted_row(board, access, channel, message, GET_STATUS_BYTES)?;
    if status.is_empty() {
        return Err(Refusal::R3);
    }
    Ok(())
}

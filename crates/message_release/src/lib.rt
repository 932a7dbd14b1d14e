// Release: the controller gives a processor back. The function tests the rows of document 01's
// outcome table from N4 on, in its order; the rows above are passed when it is called. OK changes
// the record in the lent memory, and a refusal leaves it.
#![tactic(auto)]

ghost use Rattle.std.specs.Prelude.{List, ℕ};
ghost use Rattle.rules.specs.declared.Kind.TheVariants.{Release};
ghost use Rattle.rules.specs.Message.{query};
ghost use Rattle.record.specs.Memory.{memories};
ghost use Rattle.message_operation.specs.Operation.{alone, Carries};

use board::BoardMemory;
use message_fields::RELEASE_BYTES;
use message_operation::controlled;
use record::{RecordMemory, on_release};
use rules::Outcome;

// Release: the sender is the controller. The processor is free, and the other fields are kept.
pub fn release(
    board: &BoardMemory,
    records: &mut RecordMemory,
    channel: u8,
    message: &[u8],
) -> Outcome
    ensures { (access status : List ℕ) (room : ℕ) → Carries Release
        (memories board.now access records.old)
        (query channel message.now status room) records.new (alone result) }
{
    let named = controlled(board, &records[..], channel, message, RELEASE_BYTES)?;
    on_release(records, named.row);
    Ok(())
}

// Handover: the controller gives a processor to another host. The function tests the rows of document
// 01's outcome table from N4 on, in its order; the rows above are passed when it is called. OK changes
// the record in the lent memory, and a refusal leaves it.
#![tactic(auto)]

ghost use Rattle.std.specs.Prelude.{List, ℕ};
ghost use Rattle.rules.specs.declared.Kind.TheVariants.{Handover};
ghost use Rattle.rules.specs.Message.{query};
ghost use Rattle.record.specs.Memory.{memories};
ghost use Rattle.message_operation.specs.Operation.{alone, Carries};

use access_rights::is_permitted;
use board::BoardMemory;
use message_fields::{HANDOVER_BYTES, NEW_HOST};
use message_operation::controlled;
use record::{RecordMemory, on_handover};
use rules::{Outcome, Refusal};
use wire::byte_at;

// Handover: the sender is the controller, and the new host is permitted. The new host controls.
pub fn handover(
    board: &BoardMemory,
    access: &[u16],
    records: &mut RecordMemory,
    channel: u8,
    message: &[u8],
) -> Outcome
    ensures { (status : List ℕ) (room : ℕ) → Carries Handover
        (memories board.now access.now records.old)
        (query channel message.now status room) records.new (alone result) }
{
    let named = controlled(board, &records[..], channel, message, HANDOVER_BYTES)?;
    let host = byte_at(message, NEW_HOST);
    if !is_permitted(board, access, named.row, u16::from(host)) {
        return Err(Refusal::N8);
    }
    on_handover(records, named.row, host);
    Ok(())
}

// Request: a host takes a processor. The function tests the rows of document 01's outcome table
// from N4 on, in its order; the rows above are passed when it is called. OK changes the record in
// the lent memory, and a refusal leaves it.
#![tactic(auto)]

ghost use Rattle.std.specs.Prelude.{List, ℕ};
ghost use Rattle.rules.specs.Message.{query};
ghost use Rattle.record.specs.Memory.{memories};
ghost use Rattle.rules.specs.declared.Kind.TheVariants.{Request};
ghost use Rattle.message_operation.specs.Operation.{Carries};

use access::role_of;
use access_rights::may_request;
use board::BoardMemory;
use message_fields::REQUEST_BYTES;
use message_operation::{Decision, row_named, with_role};
use record::{RecordMemory, on_request, record_at};
use rules::Refusal;

// Request: the processor is free and the sender permitted, or the sender is its recovery master. The
// sender controls. From N7 on its role is told.
pub fn request(
    board: &BoardMemory,
    access: &[u16],
    records: &mut RecordMemory,
    channel: u8,
    message: &[u8],
) -> Decision
    ensures { (status : List ℕ) (room : ℕ) → Carries Request
        (memories board.now access.now records.old)
        (query channel message.now status room) records.new result }
{
    let row = match row_named(board, message, REQUEST_BYTES) {
        Ok(row) => row,
        Err(refusal) => return with_role(Err(refusal), None),
    };
    let state = record_at(board, &records[..], row);
    let role = role_of(board, access, row, u16::from(channel));
    if !may_request(role, state) {
        return with_role(Err(Refusal::N7), role);
    }
    on_request(records, row, channel);
    with_role(Ok(()), role)
}

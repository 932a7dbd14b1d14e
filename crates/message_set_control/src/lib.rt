// Set control: the control word of a processor, which its cluster shares. The function tests the rows
// of document 01's outcome table from N4 on, in its order; the rows above are passed when it is called.
// OK changes the word in the lent memory, and a refusal leaves it.
#![tactic(auto)]

ghost use Rattle.std.specs.Prelude.{List, ℕ};
ghost use Rattle.rules.specs.declared.Kind.TheVariants.{SetControl};
ghost use Rattle.rules.specs.Message.{query};
ghost use Rattle.record.specs.Memory.{memories};
ghost use Rattle.message_operation.specs.Operation.{alone, Carries};

use board::{BoardMemory, class_at};
use flags::{CONTROL, flags_good, new_word};
use message_fields::{CONTROL_CLEAR, CONTROL_SET, SET_CONTROL_BYTES};
use message_operation::controlled;
use record::{RecordMemory, store_control};
use rules::{Outcome, Refusal};
use wire::u32_at;

// Set control: the sender is the controller of the processor that it names, and the flags may be set.
// The control word is changed, for its cluster too.
pub fn set_control(
    board: &BoardMemory,
    records: &mut RecordMemory,
    channel: u8,
    message: &[u8],
) -> Outcome
    ensures { (access status : List ℕ) (room : ℕ) → Carries SetControl
        (memories board.now access records.old)
        (query channel message.now status room) records.new (alone result) }
{
    let named = controlled(board, &records[..], channel, message, SET_CONTROL_BYTES)?;
    let set = u32_at(message, CONTROL_SET);
    let clear = u32_at(message, CONTROL_CLEAR);
    if !flags_good(class_at(board, named.row), CONTROL, set, clear) {
        return Err(Refusal::N8);
    }
    let control = new_word(named.state.control, set, clear);
    store_control(board, records, named.row, control);
    Ok(())
}

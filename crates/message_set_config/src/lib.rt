// Set config: the boot vector and the config word of a processor. The function tests the rows of
// document 01's outcome table from N4 on, in its order; the rows above are passed when it is
// called. OK changes the record in the lent memory, and a refusal leaves it.
#![tactic(auto)]

ghost use Rattle.std.specs.Prelude.{◌≡◌, List, ℕ};
ghost use Rattle.rules.specs.declared.Kind.TheVariants.{SetConfig};
ghost use Rattle.rules.specs.Flags.{vector_good, config_good};
ghost use Rattle.rules.specs.Effect.{with_config};
ghost use Rattle.rules.specs.Message.{query};
ghost use Rattle.record.specs.Memory.{memories};
ghost use Rattle.message_operation.specs.Operation.{alone, Carries};

use board::{BoardMemory, class_at};
use flags::{CONFIG, flags_good, keeps_vector, new_word};
use message_fields::{CONFIG_CLEAR, CONFIG_SET, SET_CONFIG_BYTES, VECTOR_HIGH, VECTOR_LOW};
use message_operation::controlled;
use record::{RecordMemory, store_own};
use rules::{Outcome, Record, Refusal};
use wire::u32_at;

// Whether a boot vector may be stored: an R5's has bits 6 to 0 zero.
fn vector_good(class: usize, low: u32) -> bool
    ensures { result ≡ vector_good class low }
{
    (class != 0) | (low % 128 == 0)
}

// Whether the operands of set config are right: its flags, and its vector unless bit 28 is named.
fn config_good(class: usize, low: u32, set: u32, clear: u32) -> bool
    ensures { result ≡ config_good class low set clear }
{
    flags_good(class, CONFIG, set, clear) & (keeps_vector(clear) | vector_good(class, low))
}

// The record with the config word changed, and the vector unless bit 28 is named.
fn with_config(low: u32, high: u32, set: u32, clear: u32, state: Record) -> Record
    ensures { result ≡ with_config low high set clear state }
{
    let config = new_word(state.config, set, clear);
    if keeps_vector(clear) {
        return Record { config, ..state };
    }
    Record {
        low,
        high,
        config,
        ..state
    }
}

// Set config: the sender is the controller, and flags and vector may be set. The config word is
// changed, and the vector stored unless bit 28 is named.
pub fn set_config(
    board: &BoardMemory,
    records: &mut RecordMemory,
    channel: u8,
    message: &[u8],
) -> Outcome
    ensures { (access status : List ℕ) (room : ℕ) → Carries SetConfig
        (memories board.now access records.old)
        (query channel message.now status room) records.new (alone result) }
{
    let named = controlled(board, &records[..], channel, message, SET_CONFIG_BYTES)?;
    let low = u32_at(message, VECTOR_LOW);
    let set = u32_at(message, CONFIG_SET);
    let clear = u32_at(message, CONFIG_CLEAR);
    if !config_good(class_at(board, named.row), low, set, clear) {
        return Err(Refusal::N8);
    }
    let high = u32_at(message, VECTOR_HIGH);
    store_own(
        records,
        named.row,
        with_config(low, high, set, clear, named.state),
    );
    Ok(())
}

// Why a board description is refused: document 02's D1 to D6, in its order, for each item in turn.
// What an item's faults ask of the items before it is found by walking those again: nothing is kept.
#![tactic(auto)]

mod earlier;
mod fault;
mod item;

ghost use Rattle.std.specs.Prelude.{◌≡◌};
ghost use Rattle.rules.specs.Description.{board_verdict};

use crate::fault::fault_of;
pub use item::{HOST, Items, field_size, item_at};
use rules::{Fault, Verdict};

// What a description comes to, where `listed` says whether a list or a block was accepted before. The first
// fault is reported: a field that is not good ends the search, so what is behind it is never read.
#[tactic(auto, unfolding(rules::specs::Description::board_verdict, rules::specs::Description::description_table, rules::specs::Table::first_of))]
pub fn judge_description(listed: bool, description: &[u8]) -> Verdict
    ensures { result ≡ board_verdict listed description.now }
{
    if listed {
        return Err(Fault::A1);
    }
    for (count, item) in Items(description).enumerate() {
        fault_of(description, count, item)?;
    }
    Ok(())
}

// The faults of an item of a board description: document 02's D1 to D6, in its order.
ghost use Rattle.std.specs.Prelude.{◌≡◌, cond};
ghost use Rattle.rules.specs.Verdict.{Accepted};
ghost use Rattle.rules.specs.Table.{first_of};
ghost use Rattle.rules.specs.Board.{rows, host_limit};
ghost use Rattle.rules.specs.Description.{is_host, item_table};
ghost use Rattle.board_description.specs.EarlierItems.{listed_before};

use crate::earlier::look_back;
use crate::item::HOST;
use board::ROWS;
use rules::{Fault, Item, Verdict};

// How many hosts there may be, host 0 not counted. There may be as many processors as a board has rows.
const HOST_LIMIT: usize = 64;

// How many of the kind of an item there may be.
fn limit_of(item: Item) -> usize
    ensures { result ≡ cond (is_host item) host_limit rows }
{
    if item.tag == HOST {
        HOST_LIMIT
    } else {
        ROWS as usize
    }
}

// D1 to D6 of an item behind the first `count` of a description.
#[tactic(auto, unfolding(rules::specs::Table::first_of, rules::specs::Description::item_table, rules::specs::Description::is_full, crate::specs::EarlierItems::before_in, crate::specs::EarlierItems::kind_count))]
pub(crate) fn fault_of(description: &[u8], count: usize, item: Item) -> Verdict
    ensures { result ≡ first_of Accepted (item_table (listed_before description.now count) item) }
{
    let before = look_back(description, count, item);
    if item.tag == 0 {
        return Err(Fault::D1);
    }
    if item.number == 0 {
        return Err(Fault::D2);
    }
    if before.repeated {
        return Err(Fault::D3);
    }
    if item.mark > 1 {
        return Err(Fault::D4);
    }
    if before.mixed {
        return Err(Fault::D5);
    }
    if before.same >= limit_of(item) {
        return Err(Fault::D6);
    }
    Ok(())
}

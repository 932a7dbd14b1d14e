// The board in force: the one that a description leaves, put into the lent board memory item by
// item. The description is judged first, so a refused one writes nothing.
#![tactic(auto)]

mod starting;

ghost use Rattle.std.specs.Prelude.{◌≡◌, false, ◌≤◌, ◌<◌, length};
ghost use Rattle.rules.specs.Verdict.{Accepted};
ghost use Rattle.rules.specs.Board.{rows};
ghost use Rattle.rules.specs.Description.{is_host, with_item, shared_cluster, home_in, board_verdict, described, item_processor};
ghost use Rattle.board.specs.Memory.{board_bytes};
ghost use Rattle.board_description.specs.EarlierItems.{listed_before};
ghost use Rattle.board_setup.specs.Setup.{board_after, shares_word, row_after, put_item};

use board::{BoardMemory, clear, store_host, store_processor};
use board_description::{HOST, Items, judge_description};
use rules::{Item, Verdict};
pub use starting::start;

// The class whose clusters share a control word.
const ARMV8: u8 = 1;

// The cluster whose control word an item's processor has, or 0 for one that has its own.
#[tactic(auto, unfolding(rules::specs::Description::shared_cluster))]
fn shared_cluster(item: Item) -> u8
    ensures { result ≡ shared_cluster (item_processor item) }
{
    if item.mark == ARMV8 { item.cluster } else { 0 }
}

// The first free row once an item is put, where `row` was the first before: a host takes none.
#[tactic(auto, unfolding(crate::specs::Setup::row_after))]
fn row_after(row: u8, item: Item) -> u8
    requires { row ≤ rows }
    ensures { result ≡ row_after row item }
{
    if item.tag == HOST { row } else { row + 1 }
}

// Whether an item is a processor that has the control word of this cluster.
#[tactic(auto, unfolding(crate::specs::Setup::shares_word))]
fn shares(item: Item, cluster: u8) -> bool
    ensures { result ≡ shares_word item cluster }
{
    (item.tag != HOST) & (cluster == shared_cluster(item))
}

// The home of the control word of a processor that comes to `row` behind the first `count` items:
// the row of the first of them that has the same word, or its own.
fn home_of(description: &[u8], count: usize, item: Item, row: u8) -> u8
    requires behind { row ≡ length (listed_before description.now count).processors }
    requires item_value { (is_host item ≡ false) × (row < rows) }
    ensures { result ≡ home_in (with_item (listed_before description.now count) item) row }
{
    let cluster = shared_cluster(item);
    if cluster == 0 {
        return row;
    }
    let mut earlier: u8 = 0;
    for passed in Items(description).take(count) {
        if shares(passed, cluster) {
            return earlier;
        }
        earlier = row_after(earlier, passed);
    }
    row
}

// Puts an item on the board that has the first `count` items, where `row` is the first free one.
// The item has no fault, so its mark is 0 or 1, and a processor finds a row.
#[tactic(auto, unfolding(crate::specs::Setup::put_item))]
fn put(board: &mut BoardMemory, description: &[u8], count: usize, item: Item, row: u8)
    requires behind { row ≡ length (listed_before description.now count).processors }
    requires mark_bound { (item.mark ≤ 1) × (is_host item ≡ false → row < rows) }
    ensures { board.new ≡ put_item board.old (listed_before description.now count) item row }
{
    if item.tag == HOST {
        store_host(board, item.number, 1 + item.mark);
        return;
    }
    let home = home_of(description, count, item, row);
    store_processor(board, item.number, row, item.mark, home);
}

// Puts the board that an accepted description describes into the memory, whatever that held.
fn fill(board: &mut BoardMemory, description: &[u8])
    requires { board_verdict false description.now ≡ Accepted }
    ensures { board.new ≡ board_bytes (described description.now) }
{
    clear(board);
    let mut row: u8 = 0;
    for (count, item) in Items(description).enumerate() {
        put(board, description, count, item, row);
        row = row_after(row, item);
    }
}

// Judges a description and puts its board in force; on a refusal writes nothing. `listed` says whether a list or a
// block was accepted before.
#[tactic(auto, using(crate::proofs::Fills::offer_first), unfolding(crate::specs::Setup::board_after, rules::specs::Verdict::accepted))]
pub fn set_board(board: &mut BoardMemory, listed: bool, description: &[u8]) -> Verdict
    ensures verdict { result ≡ board_verdict listed description.now }
    ensures memory { board.new ≡ board_after board.old listed description.now }
{
    judge_description(listed, description)?;
    fill(board, description);
    Ok(())
}

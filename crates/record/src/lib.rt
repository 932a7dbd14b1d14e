// The record memory: the processors' records read and written, and the tallies of a change of controller. Its
// layout is specs/Memory.antt; any content is a state.
#![tactic(auto)]

mod store;
mod tally;

ghost use Rattle.std.specs.Prelude.{◌<◌, ◌≡◌};
ghost use Rattle.rules.specs.Board.{home_at};
ghost use Rattle.board.specs.Memory.{board_in};
ghost use Rattle.record.specs.Memory.{record_size, own_at, control_place, record_at};

use board::{BoardMemory, ROWS, home_at};
use rules::{Record, Tallies};
pub use store::{store_control, store_own};
pub use tally::{on_handover, on_release, on_request};
use wire::item_or;

// The record memory: eight words for each row, then a control word for each home.
pub const RECORD_WORDS: usize = 288;

pub type RecordMemory = [u32; RECORD_WORDS];

// How many words a row has, and the place of each but the first, the controller.
const ROW_WORDS: usize = 8;

const LOW: usize = 1;

const HIGH: usize = 2;

const CONFIG: usize = 3;

const GRANTS: usize = 4;

const OVERRIDES: usize = 5;

const HANDOVERS: usize = 6;

const RELEASES: usize = 7;

// Where the control words begin.
const CONTROLS: usize = 256;

// The place of the control word of the processor at `row`: at its home, which its cluster shares.
pub(crate) fn control_place(board: &BoardMemory, row: u8) -> usize
    ensures { (result ≡ control_place (home_at (board_in board.now) row)) × (result < record_size) }
{
    CONTROLS + usize::from(home_at(board, row))
}

// The tallies at `row`.
fn tallies_at(records: &[u32], row: u8) -> Tallies
    ensures { result ≡ (own_at records.now row).tallies }
{
    let at = ROW_WORDS * usize::from(row);
    Tallies {
        grants: item_or(records, at + GRANTS, 0),
        overrides: item_or(records, at + OVERRIDES, 0),
        handovers: item_or(records, at + HANDOVERS, 0),
        releases: item_or(records, at + RELEASES, 0),
    }
}

// The record at `row`. At a row that is not there all is 0 but the control word.
#[tactic(auto, using(crate::proofs::LentMemory::load_here, crate::proofs::LentMemory::load_past), unfolding(rules::specs::State::free_own, rules::specs::Tally::no_tallies))]
pub fn record_at(board: &BoardMemory, records: &[u32], row: u8) -> Record
    ensures { result ≡ record_at (board_in board.now) records.now row }
{
    let control = item_or(records, control_place(board, row), 0);
    if row < ROWS {
        let at = ROW_WORDS * usize::from(row);
        return Record {
            controller: item_or(records, at, 0),
            low: item_or(records, at + LOW, 0),
            high: item_or(records, at + HIGH, 0),
            config: item_or(records, at + CONFIG, 0),
            control,
            tallies: tallies_at(records, row),
        };
    }
    Record {
        controller: 0,
        low: 0,
        high: 0,
        config: 0,
        control,
        tallies: Tallies {
            grants: 0,
            overrides: 0,
            handovers: 0,
            releases: 0,
        },
    }
}

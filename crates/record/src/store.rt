// A record put back into the record memory: what is a processor's own, and the control word apart from it.
ghost use Rattle.std.specs.Prelude.{◌≡◌};
ghost use Rattle.rules.specs.Board.{home_at};
ghost use Rattle.rules.specs.State.{own_of};
ghost use Rattle.board.specs.Memory.{board_in};
ghost use Rattle.record.specs.Memory.{with_own, with_control_word};

use crate::{
    CONFIG, GRANTS, HANDOVERS, HIGH, LOW, OVERRIDES, RELEASES, ROW_WORDS, RecordMemory,
    control_place,
};
use board::{BoardMemory, ROWS};
use rules::Record;

// Puts all of a record but its control word at `row`. A row that is not there is left alone.
#[tactic(auto, unfolding(crate::specs::Memory::with_own))]
pub fn store_own(records: &mut RecordMemory, row: u8, state: Record)
    ensures { records.new ≡ with_own records.old row (own_of state) }
{
    if row < ROWS {
        let at = ROW_WORDS * usize::from(row);
        records[at] = state.controller;
        records[at + LOW] = state.low;
        records[at + HIGH] = state.high;
        records[at + CONFIG] = state.config;
        records[at + GRANTS] = state.tallies.grants;
        records[at + OVERRIDES] = state.tallies.overrides;
        records[at + HANDOVERS] = state.tallies.handovers;
        records[at + RELEASES] = state.tallies.releases;
    }
}

// Puts the control word of the processor at `row`, and so of its cluster, at the home.
pub fn store_control(board: &BoardMemory, records: &mut RecordMemory, row: u8, control: u32)
    ensures { records.new
        ≡ with_control_word records.old (home_at (board_in board.now) row) control }
{
    records[control_place(board, row)] = control;
}

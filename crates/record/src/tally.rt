// A change of a processor's controller, in the lent record memory, and what it counts for (document 02,
// L10). Each function is for a message that is carried out; no tally can wrap. The rules are
// rules/specs/Tally.antt.
ghost use Rattle.std.specs.Prelude.{◌<◌, ◌≡◌, get_or, set};
ghost use Rattle.rules.specs.declared.Kind.TheVariants.{Request, Release, Handover};
ghost use Rattle.rules.specs.Tally.{one_more};
ghost use Rattle.record.specs.Memory.{record_size};
ghost use Rattle.record.specs.Holder.{with_holder};

use crate::{GRANTS, HANDOVERS, OVERRIDES, RELEASES, ROW_WORDS, RecordMemory};
use board::ROWS;

// One more in the tally at place `at`, up to the cap.
#[tactic(auto, using(rules::proofs::Tally::more_below, rules::proofs::Tally::more_at))]
fn count(records: &mut RecordMemory, at: usize)
    requires { at < record_size }
    ensures { records.new ≡ set records.old at (one_more (get_or records.old at 0)) }
{
    records[at] = records[at].saturating_add(1);
}

// A request: `host` controls the processor at `row`. That is a grant where it was free, an override where
// another host held it, and nothing where `host` did.
#[tactic(auto, using(crate::proofs::Changes::changes))]
pub fn on_request(records: &mut RecordMemory, row: u8, host: u8)
    ensures { records.new ≡ with_holder Request records.old row host }
{
    if ROWS <= row {
        return;
    }
    let at = ROW_WORDS * usize::from(row);
    let before = records[at];
    records[at] = u32::from(host);
    if before == 0 {
        count(records, at + GRANTS);
        return;
    }
    if before == u32::from(host) {
        return;
    }
    count(records, at + OVERRIDES);
}

// A handover: `host` controls the processor at `row`. It counts unless `host` did before.
#[tactic(auto, using(crate::proofs::Changes::changes))]
pub fn on_handover(records: &mut RecordMemory, row: u8, host: u8)
    ensures { records.new ≡ with_holder Handover records.old row host }
{
    if ROWS <= row {
        return;
    }
    let at = ROW_WORDS * usize::from(row);
    let before = records[at];
    records[at] = u32::from(host);
    if before != u32::from(host) {
        count(records, at + HANDOVERS);
    }
}

// A release: the processor at `row` is free.
#[tactic(auto, using(crate::proofs::Changes::changes))]
pub fn on_release(records: &mut RecordMemory, row: u8)
    ensures { records.new ≡ with_holder Release records.old row 0 }
{
    if ROWS <= row {
        return;
    }
    let at = ROW_WORDS * usize::from(row);
    records[at] = 0;
    count(records, at + RELEASES);
}

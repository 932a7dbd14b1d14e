// The message call of the manager of processor boot, over memory that the caller lends; record memory that
// is all zeros is a fresh manager's, and any content is a state. A message is tested by the outcome table of
// document 01, row by row: first the rows that every message passes alike, then those of its type, which
// also change the record. The answer is written last.
#![tactic(auto)]

mod dispatch;
mod screen;

ghost use Rattle.rules.specs.Message.{query, kind_in};
ghost use Rattle.rules.specs.Outcome.{outcome_table};
ghost use Rattle.record.specs.Memory.{memories};
ghost use Rattle.message_operation.specs.Operation.{Decides};
ghost use Rattle.call_message.specs.Calls.{lending, MessageCall};

use crate::dispatch::by_kind;
use crate::screen::before_type;
use access::AccessMemory;
use board::BoardMemory;
use message_answer::write_answer;
use message_operation::{Decision, outcome_alone};
use record::RecordMemory;
use rules::Report;

// What a message call comes to, by the whole table, with the effect of OK.
fn decide(
    board: &BoardMemory,
    access: &[u16],
    records: &mut RecordMemory,
    channel: u8,
    message: &[u8],
    status: &[u32],
    room: usize,
) -> Decision
    ensures { Decides outcome_table (kind_in message.now)
        (memories board.now access.now records.old)
        (query channel message.now status.now room) records.new result }
{
    if let Err(refusal) = before_type(board, access, channel, message, room) {
        return outcome_alone(Err(refusal));
    }
    by_kind(board, access, records, channel, message, status)
}

// Carries out one message from the channel of host `channel`. Board and access memory are only read. The
// record of the processor that the message names is changed in the lent memory; then the answer is
// written, if one is asked for. A refused message leaves every record as it was.
pub fn message(
    board: &BoardMemory,
    access: &AccessMemory,
    records: &mut RecordMemory,
    channel: u8,
    message: &[u8],
    status: &[u32],
    answer: &mut [u8],
) -> Report
    ensures { MessageCall
        (memories board.now access.now records.old)
        (lending channel message.now status.now answer.old)
        records.new answer.new result }
{
    let list = &access[..];
    let room = answer.len();
    let decision = decide(board, list, records, channel, message, status, room);
    let outcome = decision.outcome;
    let role = decision.role;
    let written = write_answer(board, answer, message, outcome, &records[..], status);
    Report {
        outcome,
        checks: decision.checks,
        micros: decision.micros,
        written,
        role,
    }
}

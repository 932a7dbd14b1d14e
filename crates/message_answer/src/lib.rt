// The answer to a message, written to the start of the lent buffer: the last column of document 01's
// outcome table. What is written is specs/Puts.antt, over the bytes that rules/specs/Answer.antt gives.
#![tactic(auto)]

mod bytes;

ghost use Rattle.std.specs.Prelude.{◌≡◌, Err, cond, []};
ghost use Rattle.rules.specs.Outcome.{OK, silent};
ghost use Rattle.rules.specs.Message.{answer_asked};
ghost use Rattle.rules.specs.Answer.{nak};
ghost use Rattle.message_answer.specs.Puts.{answer_in, Puts};

use crate::bytes::{header, status_answer};
use board::BoardMemory;
pub use bytes::ANSWER_BYTES;
use message_fields::{answer_asked, kind_in};
use message_operation::row_in;
use record::record_at;
use rules::{Kind, Outcome, Refusal};
use wire::{item_or, put};

// Writes the ACK where an answer is asked for, and gives its length. That to get status has the
// record and the status now, every other is the header alone.
fn write_ack(
    board: &BoardMemory,
    answer: &mut [u8],
    message: &[u8],
    records: &[u32],
    status: &[u32],
) -> usize
    ensures { Puts (answer_in board.now records.now OK message.now status.now)
        answer.old answer.new result }
{
    if !answer_asked(message) {
        return 0;
    }
    let kind = kind_in(message);
    if let Kind::GetStatus = kind {
        let state = record_at(board, records, row_in(board, message));
        // The first status word is the status now.
        let bytes = status_answer(message, state, item_or(status, 0, 0));
        return put(answer, &bytes);
    }
    let bytes = header(message, true);
    put(answer, &bytes)
}

// Writes the NAK where an answer is asked for, and gives its length.
fn write_nak(answer: &mut [u8], message: &[u8]) -> usize
    ensures { Puts (cond (answer_asked message.now) (nak message.now) []) answer.old answer.new result }
{
    if !answer_asked(message) {
        return 0;
    }
    let bytes = header(message, false);
    put(answer, &bytes)
}

// Whether the sender is told nothing of a refusal.
fn is_silent(refusal: Refusal) -> bool
    ensures { result ≡ silent (Err refusal) }
{
    matches!(refusal, Refusal::R1 | Refusal::R2 | Refusal::R3)
}

// Writes the answer where one is asked for and the outcome has one, and gives its length. A buffer
// that is too short for the answer is left as it was; no outcome but R1, which has none, comes to that.
// The outcome is tested before the flag, so that the compiler can join each refusal with its answer.
pub fn write_answer(
    board: &BoardMemory,
    answer: &mut [u8],
    message: &[u8],
    outcome: Outcome,
    records: &[u32],
    status: &[u32],
) -> usize
    ensures { Puts (answer_in board.now records.now outcome message.now status.now)
        answer.old answer.new result }
{
    let Err(refusal) = outcome else {
        return write_ack(board, answer, message, records, status);
    };
    if is_silent(refusal) {
        return 0;
    }
    write_nak(answer, message)
}

// Wait status. The function tests the rows of document 01's outcome table from N4 on, in its order; the
// rows above are passed when it is called. No record changes, so it gets none.
#![tactic(auto)]

ghost use Rattle.std.specs.Prelude.{List, ℕ, None, Err, ◌+◌, ◌*◌, ◌≡◌, cond};
ghost use Rattle.rules.specs.declared.Refusal.TheVariants.{N9};
ghost use Rattle.rules.specs.Outcome.{OK};
ghost use Rattle.rules.specs.declared.Kind.TheVariants.{WaitStatus};
ghost use Rattle.rules.specs.Wait.{ran_out, checks_of, micros_of};
ghost use Rattle.rules.specs.Message.{query};
ghost use Rattle.record.specs.Memory.{memories};
ghost use Rattle.message_operation.specs.Operation.{Carries};

use board::BoardMemory;
use message_fields::WAIT_STATUS_BYTES;
use message_operation::{Decision, outcome_alone, permitted_row};
use rules::{Refusal, Wait};
use wait::{ending_check, wait_good, wait_in};

// The microseconds of a wait: at most 65,280.
fn micros(before: u8, delay: u8, checks: u8) -> u32
    ensures { result ≡ before + delay * checks }
{
    before as u32 + delay as u32 * checks as u32
}

// What a wait comes to, OK or N9, with the checks that it really took.
fn waited(w: Wait, status: &[u32]) -> Decision
    ensures { result ≡ record {
      outcome = cond (ran_out w status.now) (Err N9) OK;
      checks = checks_of w status.now;
      micros = micros_of w status.now;
      role = None;
    } }
{
    let ended = ending_check(w, status);
    if ended == 0 {
        return Decision {
            outcome: Err(Refusal::N9),
            checks: w.waits as u32,
            micros: micros(w.before, w.delay, w.waits),
            role: None,
        };
    }
    Decision {
        outcome: Ok(()),
        checks: ended as u32,
        micros: micros(w.before, w.delay, ended as u8),
        role: None,
    }
}

// Wait status: the sender is permitted, the wait asks for something that words can give, and there are
// as many status words as it may check. No record changes.
pub fn wait_status(
    board: &BoardMemory,
    access: &[u16],
    channel: u8,
    message: &[u8],
    status: &[u32],
) -> Decision
    ensures { (records : List ℕ) (room : ℕ) → Carries WaitStatus
        (memories board.now access.now records)
        (query channel message.now status.now room) records result }
{
    if let Err(refusal) = permitted_row(board, access, channel, message, WAIT_STATUS_BYTES) {
        return outcome_alone(Err(refusal));
    }
    let w = wait_in(message);
    if !wait_good(w) {
        return outcome_alone(Err(Refusal::N8));
    }
    if status.len() < usize::from(w.waits) {
        return outcome_alone(Err(Refusal::R3));
    }
    waited(w, status)
}

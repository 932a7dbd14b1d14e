// The rows of document 01's outcome table from N3 on: the type decides which function carries the
// message out. Each type's function is in a crate of its own.
ghost use Rattle.std.specs.Prelude.{ℕ};
ghost use Rattle.rules.specs.Message.{query, kind_in};
ghost use Rattle.rules.specs.Outcome.{from_type};
ghost use Rattle.record.specs.Memory.{memories};
ghost use Rattle.message_operation.specs.Operation.{Decides};

use board::BoardMemory;
use message_auth_boot::authenticated_boot;
use message_fields::kind_in;
use message_get_status::get_status;
use message_handover::handover;
use message_operation::{Decision, outcome_alone};
use message_release::release;
use message_request::request;
use message_set_config::set_config;
use message_set_control::set_control;
use message_wait_status::wait_status;
use record::RecordMemory;
use rules::{Kind, Refusal};

// The rows from N3 on, by the type, with the effect of OK.
pub(crate) fn by_kind(
    board: &BoardMemory,
    access: &[u16],
    records: &mut RecordMemory,
    channel: u8,
    message: &[u8],
    status: &[u32],
) -> Decision
    ensures { (room : ℕ) → Decides from_type (kind_in message.now)
        (memories board.now access.now records.old)
        (query channel message.now status.now room) records.new result }
{
    let kind = kind_in(message);
    match kind {
        Kind::Request => request(board, access, records, channel, message),
        Kind::Release => outcome_alone(release(board, records, channel, message)),
        Kind::Handover => outcome_alone(handover(board, access, records, channel, message)),
        Kind::SetConfig => outcome_alone(set_config(board, records, channel, message)),
        Kind::SetControl => outcome_alone(set_control(board, records, channel, message)),
        Kind::AuthBoot => outcome_alone(authenticated_boot(message)),
        Kind::GetStatus => outcome_alone(get_status(board, access, channel, message, status)),
        Kind::WaitStatus => wait_status(board, access, channel, message, status),
        Kind::Other => outcome_alone(Err(Refusal::N3)),
    }
}

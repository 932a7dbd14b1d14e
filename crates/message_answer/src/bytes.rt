// The answers' bytes, ACK and NAK. The rules are rules/specs/Answer.antt.
ghost use Rattle.std.specs.Prelude.{◌≡◌, cond, ◌++◌};
ghost use Rattle.rules.specs.Answer.{header_with, ack, status_bytes};

use rules::Record;
use wire::{byte_at, put, put_u32};

// The bytes of the largest answer, the ACK to get status; an answer buffer has at least as many.
pub const ANSWER_BYTES: usize = 29;

// The bytes of an answer's header; every other answer is the header alone.
const HEADER_BYTES: usize = 8;

// Where the ACK to get status has its fields behind the header.
const PROCESSOR_AT: usize = 8;

const LOW_AT: usize = 9;

const HIGH_AT: usize = 13;

const CONFIG_AT: usize = 17;

const CONTROL_AT: usize = 21;

const STATUS_AT: usize = 25;

// The header of an answer to `message`: ACK or NAK.
pub(crate) fn header(message: &[u8], acked: bool) -> [u8; HEADER_BYTES]
    ensures { result ≡ header_with (cond acked 2 0) message.now }
{
    let a = byte_at(message, 0);
    let b = byte_at(message, 1);
    let host = byte_at(message, 2);
    let sequence = byte_at(message, 3);
    if acked {
        return [a, b, host, sequence, 2, 0, 0, 0];
    }
    [a, b, host, sequence, 0, 0, 0, 0]
}

// The ACK to get status: header, processor, boot vector, config, control and status words.
pub(crate) fn status_answer(message: &[u8], state: Record, status: u32) -> [u8; ANSWER_BYTES]
    ensures { result ≡ ack message.now ++ status_bytes message.now state status }
{
    let head = header(message, true);
    let mut answer = [0u8; ANSWER_BYTES];
    put(&mut answer, &head);
    answer[PROCESSOR_AT] = byte_at(message, PROCESSOR_AT);
    put_u32(&mut answer, LOW_AT, state.low);
    put_u32(&mut answer, HIGH_AT, state.high);
    put_u32(&mut answer, CONFIG_AT, state.config);
    put_u32(&mut answer, CONTROL_AT, state.control);
    put_u32(&mut answer, STATUS_AT, status);
    answer
}

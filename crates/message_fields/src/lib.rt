// What a message says before its type's own operands: header, types, sizes and the places of the fields, as
// document 01's tables have them. The rules are rules/specs/Message.antt.
#![tactic(auto)]

ghost use Rattle.std.specs.Prelude.{◌≡◌};
ghost use Rattle.rules.specs.Message.{kind_of, kind_in, answer_asked};

use rules::Kind;
use wire::{u16_at, u32_at};

// The places of the header's fields.
const TYPE: usize = 0;

pub const HOST: usize = 2;

pub const SEQUENCE: usize = 3;

pub const FLAGS: usize = 4;

// The bytes of the header, and how many a message has at most.
pub const HEADER_BYTES: usize = 8;

pub const MESSAGE_BYTES: usize = 60;

// The bytes of each type's structure, with the header.
pub const REQUEST_BYTES: usize = 9;

pub const RELEASE_BYTES: usize = 9;

pub const HANDOVER_BYTES: usize = 10;

pub const SET_CONFIG_BYTES: usize = 25;

pub const SET_CONTROL_BYTES: usize = 17;

pub const AUTH_BOOT_BYTES: usize = 16;

pub const GET_STATUS_BYTES: usize = 9;

pub const WAIT_STATUS_BYTES: usize = 29;

// The place of the processor, in every type that names one, and of handover's new host.
pub const PROCESSOR: usize = 8;

pub const NEW_HOST: usize = 9;

// The places of set config's fields.
pub const VECTOR_LOW: usize = 9;

pub const VECTOR_HIGH: usize = 13;

pub const CONFIG_SET: usize = 17;

pub const CONFIG_CLEAR: usize = 21;

// The places of set control's fields.
pub const CONTROL_SET: usize = 9;

pub const CONTROL_CLEAR: usize = 13;

// What a message asks for, by the number of its type.
fn kind_of(number: u16) -> Kind
    ensures { result ≡ kind_of number }
{
    match number {
        0xC000 => Kind::Request,
        0xC001 => Kind::Release,
        0xC005 => Kind::Handover,
        0xC100 => Kind::SetConfig,
        0xC101 => Kind::SetControl,
        0xC120 => Kind::AuthBoot,
        0xC400 => Kind::GetStatus,
        0xC401 => Kind::WaitStatus,
        _ => Kind::Other,
    }
}

// What a message asks for, by its type.
pub fn kind_in(message: &[u8]) -> Kind
    ensures { result ≡ kind_in message.now }
{
    kind_of(u16_at(message, TYPE))
}

// Whether the message asks for an answer: flag bit 1.
pub fn answer_asked(message: &[u8]) -> bool
    ensures { result ≡ answer_asked message.now }
{
    u32_at(message, FLAGS) / 2 % 2 == 1
}

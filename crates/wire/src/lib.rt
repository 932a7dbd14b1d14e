// Bytes in and out: little-endian numbers at any place of lent bytes, tagged fields, and bytes put into a
// lent buffer. The rules are rules/specs/Bytes.antt, rules/specs/Answer.antt and specs/Tagged.antt.
#![tactic(auto)]

mod read;
mod tagged;
mod write;

pub use read::{byte_at, item_or, joined, u16_at, u32_at};
pub use tagged::{FIELD_HEAD, Tagged, tagged_at};
pub use write::{move_down, put, put_u32};

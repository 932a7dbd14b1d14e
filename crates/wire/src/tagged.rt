// Tagged fields: a one-byte tag, a two-byte little-endian length and the body, as recordings and board
// descriptions have them. The rule is specs/Tagged.antt; which tags and lengths are good the caller judges.
ghost use Rattle.std.specs.Prelude.{◌≡◌};
ghost use Rattle.wire.specs.Tagged.{tagged_at};

use crate::read::{paired, rest_at};

// How many bytes a field has before its body: the tag and the length.
pub const FIELD_HEAD: usize = 3;

// What stands at a place of bytes.
#[derive(Clone, Copy)]
pub enum Tagged {
    // The end of the bytes.
    End,
    // A tag, whose length is cut.
    Tag(u8),
    // A tag and a length, whose body is cut.
    Head(u8, u16),
    // A whole field: its tag and its length; the body starts three bytes on.
    Field(u8, u16),
}

// What stands at place `at`.
pub fn tagged_at(bytes: &[u8], at: usize) -> Tagged
    ensures { result ≡ tagged_at bytes.now at }
{
    match rest_at(bytes, at) {
        [] => Tagged::End,
        [tag, low, high, body @ ..] => {
            let length = paired(*low, *high);
            if body.len() < usize::from(length) {
                return Tagged::Head(*tag, length);
            }
            Tagged::Field(*tag, length)
        }
        [tag, ..] => Tagged::Tag(*tag),
    }
}

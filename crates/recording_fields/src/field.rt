// A recording's fields: what stands at a place of bytes. The rule is `found` of rules/specs/Recording.antt.
ghost use Rattle.std.specs.Prelude.{◌≡◌, drop};
ghost use Rattle.rules.specs.Recording.{found};

use crate::tag::{length_good, tag_good};
use rules::Found;
use wire::{Tagged, tagged_at};

// What stands at place `at` of the bytes. A bad tag is found alone, a bad length before the body.
#[inline(always)]
pub fn find(bytes: &[u8], at: usize) -> Found
    ensures { result ≡ found (drop at bytes.now) }
{
    let tagged = tagged_at(bytes, at);
    match tagged {
        Tagged::End => Found::Nothing,
        Tagged::Tag(tag) => {
            if tag_good(tag) {
                return Found::Partial;
            }
            Found::Bad
        }
        Tagged::Head(tag, length) => {
            if length_good(tag, length) {
                return Found::Partial;
            }
            Found::Bad
        }
        Tagged::Field(tag, length) => {
            if length_good(tag, length) {
                return Found::Whole(tag, length);
            }
            Found::Bad
        }
    }
}

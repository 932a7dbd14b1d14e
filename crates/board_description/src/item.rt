// The items of a board description, document 02's L8, in turn. The rules are rules/specs/Description.antt.
ghost use Rattle.std.specs.Prelude.{◌≡◌, cond, ◌≤◌, drop, eqb};
ghost use Rattle.std.specs.Iterator.{YieldsFirst, item_count};
ghost use Rattle.rules.specs.Bytes.{byte_at};
ghost use Rattle.rules.specs.Description.{processor_tag, body_size, field_size, item_in, items_in};

use rules::Item;
use wire::{FIELD_HEAD, Tagged, byte_at, tagged_at};

// The tags of a host and of a processor.
pub const HOST: u8 = 1;

const PROCESSOR: u8 = 2;

// The bytes of a body: number and mark; number, class and cluster.
const HOST_BYTES: u16 = 2;

const PROCESSOR_BYTES: u16 = 3;

// A field that is not good: it has no tag.
const NO_ITEM: Item = Item {
    tag: 0,
    number: 0,
    mark: 0,
    cluster: 0,
};

// How many bytes a field of this tag has behind tag and length; 0 where there is no such tag.
#[tactic(auto, unfolding(rules::specs::Description::body_size, rules::specs::Table::first_of))]
fn body_size(tag: u8) -> u16
    ensures { (result ≡ body_size tag) × (result ≤ 3) }
{
    match tag {
        HOST => HOST_BYTES,
        PROCESSOR => PROCESSOR_BYTES,
        _ => 0,
    }
}

// The cluster that a body of this tag names; a host has none.
fn cluster_in(body: &[u8], tag: u8) -> u8
    ensures { result ≡ cond (eqb tag processor_tag) (byte_at body.now 2) 0 }
{
    if tag == PROCESSOR {
        byte_at(body, 2)
    } else {
        0
    }
}

// The item that the bytes begin with, or none where its tag or length is bad or it is cut.
fn item_in(bytes: &[u8]) -> Item
    ensures { result ≡ item_in bytes.now }
{
    let tagged = tagged_at(bytes, 0);
    let Tagged::Field(tag, length) = tagged else {
        return NO_ITEM;
    };
    let size = body_size(tag);
    if size == 0 {
        return NO_ITEM;
    }
    if length != size {
        return NO_ITEM;
    }
    let body = &bytes[FIELD_HEAD..];
    let number = byte_at(body, 0);
    let mark = byte_at(body, 1);
    let cluster = cluster_in(body, tag);
    Item {
        tag,
        number,
        mark,
        cluster,
    }
}

// The item at place `at` of a description, or none where its tag or length is bad or it is cut; past the
// end there is none.
pub fn item_at(description: &[u8], at: usize) -> Item
    ensures { result ≡ item_in (drop at description.now) }
{
    item_in(description.get(at..).unwrap_or(&[]))
}

// How many bytes the field of an item has.
#[tactic(auto, unfolding(rules::specs::Description::field_size))]
pub fn field_size(item: Item) -> usize
    ensures { result ≡ field_size item }
{
    FIELD_HEAD + body_size(item.tag) as usize
}

// The items of a description in turn, each behind the field of the one before; made of the bytes that are left.
#[derive(Drop)]
pub struct Items<'a>(pub &'a [u8]);

impl Iterator for Items<'_> {
    type Item = Item;

    ghost next_gives = { YieldsFirst (λ s. items_in s.0.now) };

    ghost remaining = { item_count (λ s. items_in s.0.now) };

    fn next(&mut self) -> Option<Item> {
        if self.0.is_empty() {
            return None;
        }
        let item = item_in(self.0);
        self.0 = self.0.get(field_size(item)..).unwrap_or(&[]);
        Some(item)
    }
}

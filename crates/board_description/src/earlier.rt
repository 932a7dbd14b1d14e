// What the items of a board description that come before an item say of it: they are walked again, and
// compared with it one at a time.
ghost use Rattle.std.specs.Prelude.{◌≡◌, ◌+◌, ◌<◌, ◌^◌};
ghost use Rattle.board_description.specs.EarlierItems.{listed_before, same_kind, mixes_classes, before_in, noted};

use crate::item::{HOST, Items};
use rules::Item;

// What the items before an item say of it: whether one of its kind has its number, whether a
// processor of another class has its cluster, and how many are of its kind.
#[derive(Clone, Copy)]
pub(crate) struct Before {
    pub repeated: bool,
    pub mixed: bool,
    pub same: usize,
}

// Whether two items are of one kind, hosts or processors.
#[tactic(auto, unfolding(crate::specs::EarlierItems::same_kind))]
fn same_kind(item: Item, earlier: Item) -> bool
    ensures { result ≡ same_kind item earlier }
{
    (item.tag == HOST) == (earlier.tag == HOST)
}

// Whether `earlier` is a processor of another class in the cluster of `item`; cluster 0 is none.
#[tactic(auto, unfolding(crate::specs::EarlierItems::mixes_classes))]
fn mixes_classes(item: Item, earlier: Item) -> bool
    ensures { result ≡ mixes_classes item earlier }
{
    (earlier.tag != HOST)
        & (item.cluster != 0)
        & (item.cluster == earlier.cluster)
        & (item.mark != earlier.mark)
}

// An earlier item taken into account.
#[tactic(auto, unfolding(crate::specs::EarlierItems::noted))]
fn note(before: Before, item: Item, earlier: Item) -> Before
    requires { before.same + 1 < 2 ^ 64 }
    ensures { result ≡ noted item before earlier }
{
    let mixed = before.mixed | mixes_classes(item, earlier);
    if !same_kind(item, earlier) {
        return Before { mixed, ..before };
    }
    Before {
        repeated: before.repeated | (item.number == earlier.number),
        mixed,
        same: before.same + 1,
    }
}

// What the first `count` items of a description say of an item.
pub(crate) fn look_back(description: &[u8], count: usize, item: Item) -> Before
    ensures { result ≡ before_in (listed_before description.now count) item }
{
    let mut before = Before {
        repeated: false,
        mixed: false,
        same: 0,
    };
    for earlier in Items(description).take(count) {
        before = note(before, item, earlier);
    }
    before
}

// A recording's tags, and how long a field of each may be. The rules are
// rules/specs/Recording.antt.
ghost use Rattle.std.specs.Prelude.{◌≡◌};
ghost use Rattle.rules.specs.Recording.{tag_good, length_good};

// An access list.
pub const TAG_LIST: u8 = 1;

// Status words.
pub const TAG_STATUS: u8 = 2;

// A channel host and a message.
pub const TAG_MESSAGE: u8 = 3;

// A block.
pub const TAG_BLOCK: u8 = 4;

// A board description.
pub const TAG_BOARD: u8 = 6;

// The longest body of status words, and of any other field.
const STATUS_LIMIT: u16 = 1020;

const BODY_LIMIT: u16 = 512;

// Whether a tag is one of the five.
pub(crate) fn tag_good(tag: u8) -> bool
    ensures { result ≡ tag_good tag }
{
    matches!(
        tag,
        TAG_LIST | TAG_STATUS | TAG_MESSAGE | TAG_BLOCK | TAG_BOARD
    )
}

// Whether a field of this tag may have this length; no length is good for any other tag. A message is
// tested first, since most fields are one.
pub fn length_good(tag: u8, length: u16) -> bool
    ensures { result ≡ length_good tag length }
{
    if tag == TAG_MESSAGE {
        return (1 <= length) & (length <= BODY_LIMIT);
    }
    if tag == TAG_STATUS {
        return (length <= STATUS_LIMIT) & (length % 4 == 0);
    }
    ((tag == TAG_LIST) | (tag == TAG_BLOCK) | (tag == TAG_BOARD)) & (length <= BODY_LIMIT)
}

// Little-endian numbers out of bytes, of 8, 16 and 32 bits, at any place; past the end there are zeros.
ghost use Rattle.std.specs.Prelude.{◌≡◌, ◌+◌, ◌*◌, drop, get_or};
ghost use Rattle.rules.specs.Bytes.{byte_at, u16_at, u32_at};

// The item at place `i`, or `other` past the end.
pub fn item_or<T: Copy>(items: &[T], i: usize, other: T) -> T
    ensures { result ≡ get_or items.now i other }
{
    items.get(i).copied().unwrap_or(other)
}

// The bytes from place `at` on; none past the end.
pub(crate) fn rest_at(bytes: &[u8], at: usize) -> &[u8]
    ensures { result.now ≡ drop at bytes.now }
{
    bytes.get(at..).unwrap_or(&[])
}

// The number that four bytes say, lowest first. From four bytes in a row it becomes one load.
pub fn joined(a: u8, b: u8, c: u8, d: u8) -> u32
    ensures { result ≡ a + 256 * b + 65536 * c + 16777216 * d }
{
    u32::from_le_bytes([a, b, c, d])
}

// The number that two bytes say, lowest first.
pub(crate) fn paired(low: u8, high: u8) -> u16
    ensures { result ≡ low + 256 * high }
{
    u16::from_le_bytes([low, high])
}

// The byte at place `i`.
pub fn byte_at(bytes: &[u8], i: usize) -> u8
    ensures { result ≡ byte_at bytes.now i }
{
    item_or(bytes, i, 0)
}

// The 16-bit number at place `at`.
pub fn u16_at(bytes: &[u8], at: usize) -> u16
    ensures { result ≡ u16_at bytes.now at }
{
    let rest = rest_at(bytes, at);
    paired(byte_at(rest, 0), byte_at(rest, 1))
}

// The 32-bit number at place `at`. One test finds all four bytes there, as in every message that is
// long enough for its type.
pub fn u32_at(bytes: &[u8], at: usize) -> u32
    ensures { result ≡ u32_at bytes.now at }
{
    if let Some([a, b, c, d]) = bytes.get(at..at.saturating_add(4)) {
        return joined(*a, *b, *c, *d);
    }
    let rest = rest_at(bytes, at);
    joined(byte_at(rest, 0), byte_at(rest, 1), byte_at(rest, 2), 0)
}

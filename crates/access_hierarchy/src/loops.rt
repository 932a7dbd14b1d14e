// Following supervisors in a host hierarchy: the first host in entry order that lies on a loop. The rules
// are rules/specs/Hierarchy.antt. Each host's supervisor is put into a table once, so that a step is one
// read, and no hierarchy takes more than 32 times 32 of them.
ghost use Rattle.std.specs.Prelude.{◌≡◌, replicate};
ghost use Rattle.rules.specs.Substructure.{entry_count};
ghost use Rattle.rules.specs.Hierarchy.{pairs, meets};
ghost use Rattle.access_hierarchy.specs.Supervisors.{host_count, supervisors_in, read_from, loop_found};

use crate::PAIR_BYTES;
use access_list::{ENTRIES, HEAD_BYTES};
use wire::byte_at;

// One place for each host byte.
const HOSTS: usize = 256;

// Puts each host's supervisor at its place in a table of zeros. From the last entry back, so that of two
// that name one host the first counts.
fn fill(above: &mut [u8; HOSTS], bytes: &[u8])
    requires { above.old ≡ replicate host_count 0 }
    ensures { above.new ≡ supervisors_in bytes.now }
{
    for e in (0..ENTRIES).rev() {
        let at = HEAD_BYTES + PAIR_BYTES * e;
        let host = byte_at(bytes, at);
        if host != 0 {
            above[host as usize] = byte_at(bytes, at + 1);
        }
    }
}

// Whether following the table from `host` comes back to it within 32 steps, before it ends at 0.
fn on_loop(above: &[u8; HOSTS], host: u8) -> bool
    ensures { result ≡ meets (read_from above.now) host entry_count (read_from above.now host) }
{
    let mut x = above[host as usize];
    for _ in 0..ENTRIES {
        if x == 0 {
            return false;
        }
        if x == host {
            return true;
        }
        x = above[x as usize];
    }
    false
}

// The first host in entry order that lies on a loop.
pub(crate) fn loop_host(bytes: &[u8]) -> Option<u8>
    ensures { result ≡ loop_found (pairs bytes.now) }
{
    let mut above = [0u8; HOSTS];
    fill(&mut above, bytes);
    (0..ENTRIES)
        .map(|e| byte_at(bytes, HEAD_BYTES + PAIR_BYTES * e))
        .find(|host| on_loop(&above, *host))
}

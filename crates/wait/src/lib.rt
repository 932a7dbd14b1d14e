// A wait as a value: its operands out of a message, whether they are right, when a status word matches, and
// the first check that ends a run of matching words in a row. The rules are rules/specs/Wait.antt.
#![tactic(auto)]

ghost use Rattle.std.specs.Prelude.{◌≡◌, cond, suc, ◌<◌};
ghost use Rattle.rules.specs.Message.{wait_in};
ghost use Rattle.rules.specs.Wait.{wait_good, word_matches, ending_check};

use rules::Wait;
use wire::{byte_at, u32_at};

// The places of a wait's operands in its message.
const WAITS: usize = 9;

const MATCHES: usize = 10;

const DELAY: usize = 11;

const BEFORE: usize = 12;

const SET_ALL: usize = 13;

const SET_ANY: usize = 17;

const CLEAR_ALL: usize = 21;

const CLEAR_ANY: usize = 25;

// The operands of a wait.
pub fn wait_in(message: &[u8]) -> Wait
    ensures { result ≡ wait_in message.now }
{
    Wait {
        waits: byte_at(message, WAITS),
        matches: byte_at(message, MATCHES),
        delay: byte_at(message, DELAY),
        before: byte_at(message, BEFORE),
        allset: u32_at(message, SET_ALL),
        anyset: u32_at(message, SET_ANY),
        allclear: u32_at(message, CLEAR_ALL),
        anyclear: u32_at(message, CLEAR_ANY),
    }
}

// Whether a wait asks for at least one check and one match, for no more matches than checks, with at
// least one mask. Matches of 1 or more that are not above the checks leave at least one check.
pub fn wait_good(w: Wait) -> bool
    ensures { result ≡ wait_good w }
{
    if (w.matches == 0) | (w.waits < w.matches) {
        return false;
    }
    !((w.allset == 0) & (w.anyset == 0) & (w.allclear == 0) & (w.anyclear == 0))
}

// Whether a status word matches. Most words of a long wait fail the first test, so each returns at
// once.
fn word_matches(w: Wait, word: u32) -> bool
    ensures { result ≡ word_matches w word }
{
    if (word & w.allset) != w.allset {
        return false;
    }
    if (word & w.allclear) != 0 {
        return false;
    }
    if (w.anyset != 0) & ((word & w.anyset) == 0) {
        return false;
    }
    (w.anyclear == 0) | ((word & w.anyclear) != w.anyclear)
}

// The run of matching words after one more check: one longer, or broken.
fn run_after(matching: bool, run: usize) -> usize
    requires { run < 256 }
    ensures { result ≡ cond matching (suc run) 0 }
{
    if matching { run + 1 } else { 0 }
}

// How many status words a wait examines up to the check that ends its run: the first that ends as
// many matching words in a row as the wait asks for. 0 where no check does, of `waits` at most.
pub fn ending_check(w: Wait, status: &[u32]) -> usize
    ensures { result ≡ ending_check w status.now }
{
    let waits = w.waits as usize;
    let matches = w.matches as usize;
    let mut run = 0;
    let mut checks = 0;
    // Not a `for`, which took a quarter to a half more time for each word of a long wait.
    while checks < waits {
        if status.len() <= checks {
            return 0;
        }
        run = run_after(word_matches(w, status[checks]), run);
        checks += 1;
        if matches <= run {
            return checks;
        }
    }
    0
}

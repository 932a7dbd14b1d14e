// Authenticated boot. The function tests the rows of document 01's outcome table from N4 on; the rows
// above are passed when it is called.
#![tactic(auto)]

ghost use Rattle.std.specs.Prelude.{List, ℕ};
ghost use Rattle.rules.specs.declared.Kind.TheVariants.{AuthBoot};
ghost use Rattle.rules.specs.Message.{query};
ghost use Rattle.record.specs.Memory.{Memories};
ghost use Rattle.message_operation.specs.Operation.{alone, Carries};

use message_fields::AUTH_BOOT_BYTES;
use rules::{Outcome, Refusal};

// Authenticated boot: not offered on this general-purpose part.
pub fn authenticated_boot(message: &[u8]) -> Outcome
    ensures { (m : Memories) (channel : ℕ) (status : List ℕ) (room : ℕ) → Carries AuthBoot
        m
        (query channel message.now status room) m.records (alone result) }
{
    if message.len() < AUTH_BOOT_BYTES {
        return Err(Refusal::N4);
    }
    Err(Refusal::N5)
}

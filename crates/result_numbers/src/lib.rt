// The numbers of outcomes, verdicts and roles, and the host that a verdict reports, for the log, the printed
// lines and the callers in C. The rules are the functions of the same names in rules/specs.
#![tactic(auto)]

ghost use Rattle.std.specs.Prelude.{◌≡◌};
ghost use Rattle.rules.specs.Verdict.{reported_host, verdict_number};
ghost use Rattle.rules.specs.Role.{role_number};
ghost use Rattle.rules.specs.Outcome.{outcome_number};

use rules::{Fault, Outcome, Refusal, Role, Verdict};

// Document 01's number of an outcome: 0 for OK, k for Nk, 100 + k for Rk.
pub fn outcome_number(outcome: Outcome) -> u32
    ensures { result ≡ outcome_number outcome }
{
    match outcome {
        Ok(()) => 0,
        Err(Refusal::R1) => 101,
        Err(Refusal::R2) => 102,
        Err(Refusal::N1) => 1,
        Err(Refusal::N2) => 2,
        Err(Refusal::N3) => 3,
        Err(Refusal::N4) => 4,
        Err(Refusal::N5) => 5,
        Err(Refusal::N6) => 6,
        Err(Refusal::N7) => 7,
        Err(Refusal::N8) => 8,
        Err(Refusal::R3) => 103,
        Err(Refusal::N9) => 9,
    }
}

// The number of a verdict: 0 for accepted, k for Ak, 100 + k for Bk, 200 + k for Dk.
pub fn verdict_number(verdict: Verdict) -> u32
    ensures { result ≡ verdict_number verdict }
{
    match verdict {
        Ok(()) => 0,
        Err(Fault::A1) => 1,
        Err(Fault::A2) => 2,
        Err(Fault::A3) => 3,
        Err(Fault::A4) => 4,
        Err(Fault::A5) => 5,
        Err(Fault::A6) => 6,
        Err(Fault::A7) => 7,
        Err(Fault::A8) => 8,
        Err(Fault::B1) => 101,
        Err(Fault::B2) => 102,
        Err(Fault::B3) => 103,
        Err(Fault::B4) => 104,
        Err(Fault::B5) => 105,
        Err(Fault::B6) => 106,
        Err(Fault::B7) => 107,
        Err(Fault::B8(_)) => 108,
        Err(Fault::B9) => 109,
        Err(Fault::B10) => 110,
        Err(Fault::D1) => 201,
        Err(Fault::D2) => 202,
        Err(Fault::D3) => 203,
        Err(Fault::D4) => 204,
        Err(Fault::D5) => 205,
        Err(Fault::D6) => 206,
    }
}

// The host that B8 reports, and 0 with any other verdict.
pub fn reported_host(verdict: Verdict) -> u8
    ensures { result ≡ reported_host verdict }
{
    match verdict {
        Err(Fault::B8(host)) => host,
        _ => 0,
    }
}

// The number of a role in the log: 0 for none, 1 recovery master, 2, 3 and 4 secondary 0, 1 and 2, 5 open.
pub fn role_number(role: Option<Role>) -> u32
    ensures { result ≡ role_number role }
{
    match role {
        None => 0,
        Some(Role::Master) => 1,
        Some(Role::Secondary0) => 2,
        Some(Role::Secondary1) => 3,
        Some(Role::Secondary2) => 4,
        Some(Role::Open) => 5,
    }
}

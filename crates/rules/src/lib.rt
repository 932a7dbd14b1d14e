// The types that the rules of specs/ speak of. Every crate that carries the rules out uses these,
// so that a contract can equate what the code gives with what a rule gives. No function is here.
#![tactic(auto)]

// Why a message is refused: the rows of document 01's table of outcomes, in its order.
#[derive(Clone, Copy)]
pub enum Refusal {
    R1,
    R2,
    N1,
    N2,
    N3,
    N4,
    N5,
    N6,
    N7,
    N8,
    R3,
    N9,
}

// What a message comes to: OK, or refused.
pub type Outcome = Result<(), Refusal>;

// Why an offer is refused, an access list, a security board configuration or a board description: the rows of
// document 01's table and of document 02's. B8 reports a host on the loop.
#[derive(Clone, Copy)]
pub enum Fault {
    A1,
    A2,
    A3,
    A4,
    A5,
    A6,
    A7,
    A8,
    B1,
    B2,
    B3,
    B4,
    B5,
    B6,
    B7,
    B8(u8),
    B9,
    B10,
    D1,
    D2,
    D3,
    D4,
    D5,
    D6,
}

// What an offer comes to: accepted, or refused.
pub type Verdict = Result<(), Fault>;

// One item of a board description, by its tag: 1 a host, 2 a processor, 0 for a field that is neither.
// The mark of a host says whether it is secure, that of a processor is its class. A host's cluster is 0.
#[derive(Clone, Copy)]
pub struct Item {
    pub tag: u8,
    pub number: u8,
    pub mark: u8,
    pub cluster: u8,
}

// What a message asks for, by its type; `Other` is a type that is not in the table.
#[derive(Clone, Copy)]
pub enum Kind {
    Request,
    Release,
    Handover,
    SetConfig,
    SetControl,
    AuthBoot,
    GetStatus,
    WaitStatus,
    Other,
}

// What is counted of a processor: requests granted while it was free, overrides that took it from another
// host, handovers to another host, and releases.
#[derive(Clone, Copy)]
pub struct Tallies {
    pub grants: u32,
    pub overrides: u32,
    pub handovers: u32,
    pub releases: u32,
}

// A processor's record. A controller of 0 is none, since host 0 never controls. The 64-bit boot
// vector is kept in halves, as the messages carry it.
#[derive(Clone, Copy)]
pub struct Record {
    pub controller: u32,
    pub low: u32,
    pub high: u32,
    pub config: u32,
    pub control: u32,
    pub tallies: Tallies,
}

// The operands of a wait: how many checks at most, how many matching words in a row end it, the
// microseconds of a check and before the first one, and four masks.
#[derive(Clone, Copy)]
pub struct Wait {
    pub waits: u8,
    pub matches: u8,
    pub delay: u8,
    pub before: u8,
    pub allset: u32,
    pub anyset: u32,
    pub allclear: u32,
    pub anyclear: u32,
}

// What a host that is permitted is to a processor: its recovery master, its secondary 0, 1 or 2, or a host on
// a processor that is open since it has no entry.
#[derive(Clone, Copy, PartialEq, Eq)]
pub enum Role {
    Master,
    Secondary0,
    Secondary1,
    Secondary2,
    Open,
}

// What a message call reports: the outcome, the checks a wait made and the microseconds it took, how many
// bytes were written to the answer buffer, and the sender's role in a request, if it has one.
#[derive(Clone, Copy)]
pub struct Report {
    pub outcome: Outcome,
    pub checks: u32,
    pub micros: u32,
    pub written: usize,
    pub role: Option<Role>,
}

// What the bytes of a recording begin with.
#[derive(Clone, Copy)]
pub enum Found {
    // A whole field: its tag and its length; the body starts three bytes on.
    Whole(u8, u16),
    // A bad tag or length.
    Bad,
    // The beginning of a field, with more to come.
    Partial,
    // No byte.
    Nothing,
}

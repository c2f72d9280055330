// Document 01's rules for BTSnoop: the definitions that the promises of the code cite, and the claims that follow
// from them (specs/). They stand below the code, so that a changed rule is refused in the proof of a claim.
#![tactic(auto)]

// The length of the file header, which is the place of the first record.
pub const HEADER_LENGTH: usize = 16;
// The length of a record before its packet.
pub const RECORD_LENGTH: usize = 24;

// The numbers in a record's 24 octets.
#[derive(Clone, Copy)]
pub struct Numbers {
    pub original: u32,
    pub included: u32,
    pub flags: u32,
    pub drops: u32,
    pub time: i64,
}

// Document 01's rules for the running tally, with the counts and the sums of request W-204: the definitions that the
// promises of `tally` cite, and the claims that follow from them (specs/).
#![tactic(auto)]

// The tally (document 01's term): records, received, commands, octets included, lost, the last drop number, which is of
// no account while records is 0, and by request W-204 truncated, sent and data.
#[derive(Clone, Copy)]
pub struct Tally {
    pub records: u64,
    pub received: u64,
    pub commands: u64,
    pub octets: u64,
    pub lost: u64,
    pub last: u32,
    pub truncated: u64,
    pub sent: u64,
    pub data: u64,
}

// What a tally is given of a record.
#[derive(Clone, Copy)]
pub struct Entry {
    pub original: u32,
    pub included: u32,
    pub flags: u32,
    pub drops: u32,
}

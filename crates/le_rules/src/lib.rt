// Document 01's rules for the LE pseudo-header: the definitions that the promises of the reader and the writer cite, and
// the claims that follow from them (specs/).
#![tactic(auto)]

// The length of the pseudo-header, which is the place of the packet.
pub const HEADER_LENGTH: usize = 10;

// The values in a pseudo-header's ten octets.
#[derive(Clone, Copy, Debug, PartialEq, Eq)]
pub struct Values {
    pub channel: u8,
    pub signal: i8,
    pub noise: i8,
    pub offences: u8,
    pub reference: u32,
    pub flags: u16,
}

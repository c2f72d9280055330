// Request W-206's rules for the BR/EDR pseudo-header: the definitions that the promises of the reader, the writer and the
// survey cite, and the claims that follow from them (specs/).
#![tactic(auto)]

// The length of the pseudo-header.
pub const HEADER_LENGTH: usize = 22;
// The highest RF channel.
pub const LAST_CHANNEL: u8 = 78;

// The values in a pseudo-header's 22 octets.
#[derive(Clone, Copy, Debug, PartialEq, Eq)]
pub struct Values {
    pub rf_channel: u8,
    pub signal: i8,
    pub noise: i8,
    pub offences: u8,
    pub rate: u8,
    pub header_bits: u8,
    pub payload_bits: i16,
    pub lap: u32,
    pub reference_lap: u32,
    pub reference_uap: u8,
    pub packet_header: u32,
    pub flags: u16,
}

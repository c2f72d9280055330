// Reading the LE pseudo-header: ten octets and a packet.
#![tactic(auto)]

ghost use Rattle.std.specs.Prelude.{◌≡◌};
ghost use Rattle.refusals.specs.Says.{says_by};
ghost use Rattle.le_rules.specs.Reading.{values_in, range_of, judged as judged_of, reading_of, packet_in};
ghost use Rattle.le_header.specs.Says.{header_of};

use le_flags::Told;
use le_rules::{HEADER_LENGTH, Values};
use numbers::Number;
use refusals::{Reason, Refusal};
use twos_complement::TwosComplement;

// A header that is read: its values, and what its flags tell.
#[derive(Clone, Copy, Debug, PartialEq, Eq)]
pub struct Header {
    pub values: Values,
    pub told: Told,
}

// Reads the pseudo-header at the start of an input, whose rest is the packet.
#[tactic(auto, unfolding(le_rules::specs::Reading::reading_of))]
pub fn read(s: &[u8]) -> Result<Header, Refusal>
    ensures { says_by header_of result ≡ reading_of s.now }
{
    if s.len() < HEADER_LENGTH {
        return Err(Reason::ShortHeader.at(s.len()));
    }
    judged(s.len() - HEADER_LENGTH, values(s))
}

// The values in the ten octets; an octet past the input's end counts as 0.
#[tactic(auto, unfolding(le_rules::specs::Reading::values_in))]
fn values(s: &[u8]) -> Values
    ensures { result ≡ values_in s.now }
{
    Values {
        channel: octets::octet(s, 0, 0),
        signal: i8::of_bits(octets::octet(s, 1, 0)),
        noise: i8::of_bits(octets::octet(s, 2, 0)),
        offences: octets::octet(s, 3, 0),
        reference: u32::le_at(s, 4),
        flags: u16::le_at(s, 8),
    }
}

// Judges values and the length of the packet behind them.
fn judged(packet: usize, values: Values) -> Result<Header, Refusal>
    ensures { says_by header_of result ≡ judged_of packet values (range_of values.channel values.flags) }
{
    le_ranges::judge(values)?;
    if packet < le_ranges::least_packet(values.flags) {
        return Err(Reason::ShortPacket.at(HEADER_LENGTH));
    }
    Ok(Header {
        values,
        told: le_flags::told_by(values.flags),
    })
}

// The packet of a header that is read, as a part of the input; empty where the header is refused.
#[tactic(auto, unfolding(octets::specs::Parts::part))]
pub fn packet(s: &[u8]) -> &[u8]
    ensures { result.now ≡ packet_in s.now }
{
    match read(s) {
        Err(_) => octets::part(s, 0, 0),
        Ok(_) => octets::part(s, HEADER_LENGTH, s.len()),
    }
}

// Reading the BR/EDR pseudo-header: its 22 octets, and what its flags tell.
#![tactic(auto)]

ghost use Rattle.std.specs.Prelude.{◌≡◌};
ghost use Rattle.octets.specs.Numbers.{little, number_at};
ghost use Rattle.bredr_rules.specs.Flags.{known_by};
ghost use Rattle.bredr_rules.specs.Reading.{values_in, judged as judged_of, reading_of};
ghost use Rattle.bredr_header.specs.Says.{told_says, header_of};
ghost use Rattle.refusals.specs.Says.{says_by};

use bredr_rules::{HEADER_LENGTH, LAST_CHANNEL, Values};
use numbers::Number;
use pseudo_header::Knowledge;
use refusals::{Reason, Refusal};
use twos_complement::TwosComplement;

// The four values whose validity has a flag, each as known or not. Every other value is known.
#[derive(Clone, Copy, Debug, PartialEq, Eq)]
pub struct Told {
    pub signal: Knowledge,
    pub noise: Knowledge,
    pub reference_lap: Knowledge,
    pub reference_uap: Knowledge,
}

// A header that is read: its values, and what its flags tell.
#[derive(Clone, Copy, Debug, PartialEq, Eq)]
pub struct Header {
    pub values: Values,
    pub told: Told,
}

// Reads the pseudo-header at the start of an input. What follows it is payload and is not looked at.
#[tactic(auto, unfolding(bredr_rules::specs::Reading::reading_of))]
pub fn read(s: &[u8]) -> Result<Header, Refusal>
    ensures { says_by header_of result ≡ reading_of s.now }
{
    if s.len() < HEADER_LENGTH {
        return Err(Reason::ShortHeader.at(s.len()));
    }
    judged(values(s))
}

// The values in the 22 octets; an octet past the input's end counts as 0.
#[tactic(auto, unfolding(bredr_rules::specs::Reading::values_in))]
fn values(s: &[u8]) -> Values
    ensures { result ≡ values_in s.now }
{
    Values {
        rf_channel: octets::octet(s, 0, 0),
        signal: i8::of_bits(octets::octet(s, 1, 0)),
        noise: i8::of_bits(octets::octet(s, 2, 0)),
        offences: octets::octet(s, 3, 0),
        rate: octets::octet(s, 4, 0),
        header_bits: octets::octet(s, 5, 0),
        payload_bits: i16::of_bits(u16::le_at(s, 6)),
        lap: u32::le_at(s, 8),
        reference_lap: le24(s, 12),
        reference_uap: octets::octet(s, 15, 0),
        packet_header: u32::le_at(s, 16),
        flags: u16::le_at(s, 20),
    }
}

// The number of 24 bits at a place, least significant octet first.
fn le24(s: &[u8], at: usize) -> u32
    ensures { result ≡ number_at little 3 s.now at }
{
    u32::from_le_bytes([
        octets::octet(s, at, 0),
        octets::octet(s, at, 1),
        octets::octet(s, at, 2),
        0,
    ])
}

// Judges values by their channel.
fn judged(values: Values) -> Result<Header, Refusal>
    ensures { says_by header_of result ≡ judged_of values }
{
    if LAST_CHANNEL < values.rf_channel {
        return Err(Reason::RfChannel.at(0));
    }
    Ok(Header {
        values,
        told: told_by(values.flags),
    })
}

// What the flags tell: signal by 0x0002, noise by 0x0004, reference LAP by 0x0010, reference UAP by 0x0080.
fn told_by(flags: u16) -> Told
    ensures { told_says result ≡ known_by flags }
{
    Told {
        signal: Knowledge::from((flags >> 1) % 2 == 1),
        noise: Knowledge::from((flags >> 2) % 2 == 1),
        reference_lap: Knowledge::from((flags >> 4) % 2 == 1),
        reference_uap: Knowledge::from((flags >> 7) % 2 == 1),
    }
}

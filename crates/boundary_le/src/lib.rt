// The struct of the C boundary for the LE pseudo-header, and the reader's answer as one. Kind 0 is a refusal, 1 values.
#![tactic(auto)]

ghost use Rattle.std.specs.Prelude.{◌≡◌};
ghost use Rattle.refusals.specs.Refusals.{given};
ghost use Rattle.refusals.specs.Says.{says_by};
ghost use Rattle.le_flags.specs.Says.{dependent_says, told_says};
ghost use Rattle.le_header.specs.Says.{header_of};
ghost use Rattle.boundary_le.specs.Rows.{known_bits, dependent_number, le_row};

use le_flags::{Dependent, Told};
use le_header::Header;
use le_rules::HEADER_LENGTH;
use refusals::Refusal;
use twos_complement::TwosComplement;

// zalghimo_le
#[repr(C)]
#[derive(Clone, Copy)]
pub struct Le {
    pub kind: u64,
    pub number: u64,
    pub place: u64,
    pub channel: u64,
    pub signal: i64,
    pub noise: i64,
    pub offences: u64,
    pub reference: u64,
    pub flags: u64,
    pub known: u64,
    pub pdu: u64,
    pub phy: u64,
    pub dependent: u64,
    pub packet: u64,
}

pub fn row(answer: Result<Header, Refusal>) -> Le
    ensures { result ≡ le_row (says_by header_of answer) }
{
    match answer {
        Err(refusal) => Le {
            kind: 0,
            number: refusal.reason.number() as u64,
            place: refusal.place as u64,
            channel: 0,
            signal: 0,
            noise: 0,
            offences: 0,
            reference: 0,
            flags: 0,
            known: 0,
            pdu: 0,
            phy: 0,
            dependent: 0,
            packet: 0,
        },
        Ok(header) => read_row(header),
    }
}

fn read_row(header: Header) -> Le
    ensures { result ≡ le_row (given (header_of header)) }
{
    let values = header.values;
    let told = header.told;
    Le {
        kind: 1,
        number: 0,
        place: 0,
        channel: values.channel as u64,
        signal: values.signal.wide(),
        noise: values.noise.wide(),
        offences: values.offences as u64,
        reference: values.reference as u64,
        flags: values.flags as u64,
        known: known_bits(told),
        pdu: told.pdu as u64,
        phy: told.phy as u64,
        dependent: dependent_number(told.dependent),
        packet: HEADER_LENGTH as u64,
    }
}

// Bit 0 the signal, 1 the noise, 2 the reference address, 3 the offences: set where the value is known.
fn known_bits(told: Told) -> u64
    ensures { result ≡ known_bits (told_says told) }
{
    pseudo_header::known_bits(told.signal, told.noise, told.reference, told.offences)
}

// Flags bits 12 and 13 as one number.
fn dependent_number(dependent: Dependent) -> u64
    ensures { result ≡ dependent_number (dependent_says dependent) }
{
    match dependent {
        Dependent::Auxiliary(kind) => kind as u64,
        Dependent::Mic { checked, passed } => checked as u64 + 2 * (passed as u64),
    }
}

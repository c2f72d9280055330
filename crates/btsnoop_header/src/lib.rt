// Reading the BTSnoop file header, version 1.
#![tactic(auto)]

ghost use Rattle.std.specs.Prelude.{◌≡◌};
ghost use Rattle.refusals.specs.Says.{says};
ghost use Rattle.btsnoop_rules.specs.Header.{header_at, header_judged, served as served_code};

use btsnoop_rules::HEADER_LENGTH;
use numbers::Number;
use refusals::{Reason, Refusal};

// The identification octets, as one big-endian number.
const IDENTIFICATION_OCTETS: u64 = 0x6274_736E_6F6F_7000;
// The one version that is read.
const VERSION_NUMBER: u32 = 1;
// The datalink codes that are read.
const FIRST_DATALINK: u32 = 1001;

const LAST_DATALINK: u32 = 1004;

// Reads the file header at the start of an input.
pub fn read(s: &[u8]) -> Result<u32, Refusal>
    ensures { says result ≡ header_at s.now }
{
    if s.len() < HEADER_LENGTH {
        return Err(Reason::ShortHeader.at(s.len()));
    }
    judge(s)
}

// Judges the 16 octets of a file header.
fn judge(s: &[u8]) -> Result<u32, Refusal>
    ensures { says result ≡ header_judged s.now }
{
    if u64::be_at(s, 0) != IDENTIFICATION_OCTETS {
        return Err(Reason::Identification.at(0));
    }
    if u32::be_at(s, 8) != VERSION_NUMBER {
        return Err(Reason::Version.at(8));
    }
    let datalink = u32::be_at(s, 12);
    if served(datalink) {
        Ok(datalink)
    } else {
        Err(Reason::Datalink.at(12))
    }
}

// Whether a datalink code is one of those that are read and written.
pub fn served(datalink: u32) -> bool
    ensures { result ≡ served_code datalink }
{
    (FIRST_DATALINK..=LAST_DATALINK).contains(&datalink)
}

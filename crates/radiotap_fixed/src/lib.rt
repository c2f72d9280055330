// The fixed header of radiotap: version, pad, length and the first presence word. No edition is asked.
#![tactic(auto)]

ghost use Rattle.std.specs.Prelude.{◌≡◌};
ghost use Rattle.refusals.specs.Says.{says};
ghost use Rattle.radiotap_rules.specs.Reading.{fixed_header};

use numbers::Number;
use refusals::{Reason, Refusal};

// The fixed header: version, pad, length (2), presence word (4).
pub const FIXED_LENGTH: usize = 8;

// Judges the fixed header, and answers the length that it gives.
pub fn read(s: &[u8]) -> Result<u32, Refusal>
    ensures { says result ≡ fixed_header s.now }
{
    if s.len() < FIXED_LENGTH {
        return Err(Reason::ShortHeader.at(s.len()));
    }
    if octets::octet(s, 0, 0) != 0 {
        return Err(Reason::Version.at(0));
    }
    let size = u16::le_at(s, 2) as u32;
    if (size as usize) < FIXED_LENGTH || s.len() < size as usize {
        return Err(Reason::RadiotapLength.at(2));
    }
    Ok(size)
}

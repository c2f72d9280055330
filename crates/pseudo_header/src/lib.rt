// What the pseudo-headers share: a value that is known or not by its flag, and four of them as the bits of one number.
// In specs/ also fields one behind the other at any widths, and what an accepted write leaves as it was.
#![tactic(auto)]

ghost use Rattle.std.specs.Prelude.{◌≡◌, ◌≤◌};
ghost use Rattle.pseudo_header.specs.Flags.{bit_of, known_bits};
ghost use Rattle.pseudo_header.specs.Says.{knowledge_says};

// Whether a value is known. A value is kept whether known or not, so this stands beside it; an Option would lose it.
#[derive(Clone, Copy, Debug, PartialEq, Eq)]
pub enum Knowledge {
    Known,
    Unknown,
}

// Known where the value's flag is set.
impl From<bool> for Knowledge {
    ghost from_gives = { λ set knowledge. knowledge_says knowledge ≡ set };

    fn from(set: bool) -> Knowledge {
        if set {
            Knowledge::Known
        } else {
            Knowledge::Unknown
        }
    }
}

impl Knowledge {
    // The flag's bit: set where the value is known.
    fn bit(self) -> u64
        ensures { (result ≡ bit_of (knowledge_says self)) × (result ≤ 1) }
    {
        match self {
            Knowledge::Known => 1,
            Knowledge::Unknown => 0,
        }
    }
}

// Four values as the bits of one number, from bit 0 on: set where the value is known.
pub fn known_bits(first: Knowledge, second: Knowledge, third: Knowledge, fourth: Knowledge) -> u64
    ensures { result ≡ known_bits (knowledge_says first) (knowledge_says second) (knowledge_says third) (knowledge_says fourth) }
{
    first.bit() + 2 * second.bit() + 4 * third.bit() + 8 * fourth.bit()
}

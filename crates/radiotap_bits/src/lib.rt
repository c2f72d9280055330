// The bits of a presence word: the next set one, those that an edition knows, what the word carries, and whether the next
// word is continued.
#![tactic(auto)]

ghost use Rattle.std.specs.Prelude.{◌≡◌};
ghost use Rattle.std.specs.Iterator.{at_most};
ghost use Rattle.radiotap_rules.specs.Reading.{bit_set};
ghost use Rattle.radiotap_bits.specs.Bits.{NextSet, TakesLowest, KnownBits, Carries, Continues};

// The bits of a presence word that carry a field: all but 29 and 31.
pub const FIELD_BITS: u32 = 0x5fff_ffff;

// What a presence word carries: the bits of its fields that are shown, and of those that are unknown; the lowest of
// these stops a walk.
#[derive(Clone, Copy)]
pub struct Carried {
    pub shown: u32,
    pub unknown: u32,
}

// The first set bit of a presence word from a bit on; 32 where there is none.
// No Option: 32 is the end of the word, as trailing_zeros has it, and a step passes it by the one test that passes bit 31.
pub fn next_set(word: u32, from: u32) -> u32
    ensures { NextSet word from result }
{
    if from >= 32 {
        return 32;
    }
    let rest = word >> from;
    if rest == 0 {
        return 32;
    }
    from + rest.trailing_zeros()
}

// The set bits of a presence word, from the lowest up.
#[derive(Clone, Copy, Drop)]
pub struct SetBits {
    left: u32,
}

// All set bits of a presence word.
pub fn set_bits(word: u32) -> SetBits
    ensures { result.left ≡ word }
{
    SetBits { left: word }
}

impl Iterator for SetBits {
    type Item = u32;

    ghost next_gives = { λ s next t. TakesLowest s.left next t.left };

    ghost remaining = { λ s. at_most s.left };

    fn next(&mut self) -> Option<u32> {
        if self.left == 0 {
            return None;
        }
        let bit = self.left.trailing_zeros();
        self.left = self.left & (self.left - 1);
        Some(bit)
    }
}

// The bits that the edition taken knows, as a presence word: a constant for each edition, gathered at compile time.
pub fn known(taken: u32) -> u32
    ensures { KnownBits taken result }
{
    match taken {
        1 => gathered(1),
        2 => gathered(2),
        3 => gathered(3),
        _ => gathered(taken),
    }
}

// The bits that the edition taken knows, gathered row by row.
fn gathered(taken: u32) -> u32
    ensures { KnownBits taken result }
{
    let rows = radiotap_table::rows();
    let mut bits: u32 = 0;
    for (bit, row) in rows.iter().enumerate() {
        if row.known(taken) {
            bits |= 1 << bit;
        }
    }
    bits
}

// What a presence word carries in an edition that knows these bits: the fields below the first unknown one are shown.
pub fn carries(word: u32, known: u32) -> Carried
    ensures { Carries word known result.shown result.unknown }
{
    let fields = word & FIELD_BITS;
    let known_fields = fields & known;
    let unknown = fields ^ known_fields;
    Carried {
        shown: known_fields & unknown.wrapping_sub(1),
        unknown,
    }
}

// Whether the word behind a presence word numbers its bits from 0 again: bit 29 lets it.
pub fn resets(word: u32) -> bool
    ensures { result ≡ bit_set word 29 }
{
    (word >> 29) % 2 == 1
}

// The bits by which a presence word stops a walk since it is continued: those that carry a field, where the word before it
// does not let it start again.
pub fn continued(before: u32, word: u32) -> u32
    ensures { Continues before word result }
{
    if resets(before) {
        return 0;
    }
    word & FIELD_BITS
}

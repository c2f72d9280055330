// Lines of text, written into an output from a place on, word by word and field by field.
#![tactic(auto)]

ghost use Rattle.std.specs.Prelude.{◌≡◌, [], ◌∷◌, ◌+◌, ◌≤◌, length};
ghost use Rattle.text.specs.Decimal.{decimal};
ghost use Rattle.listing_rules.specs.Lines.{tab, fields_of};
ghost use Rattle.text_lines.specs.Wrote.{place_behind, Appends};

use text::DecimalText;

// An output that lines are written into, and the place of the next octet: the one behind what was written, or the highest
// place where that would pass it, so that any place may be given.
#[derive(Drop)]
pub struct Lines<'a> {
    pub output: &'a mut [u8],
    pub at: usize,
}

impl<'a> Lines<'a> {
    // Writes a tab, a number and the line's end.
    pub fn last_field(&mut self, n: u64)
        ensures same_output { self.new.output.ghost_name ≡ self.old.output.ghost_name }
        ensures wrote { Appends self.old (fields_of (decimal n ∷ [])) self.new }
        ensures upper_bound { self.new.at ≤ self.old.at + 22 }
    {
        self.field(n);
        self.word(b"\n");
    }

    // Writes a tab and a number.
    pub fn field<T: DecimalText>(&mut self, n: T)
        ensures same_output { self.new.output.ghost_name ≡ self.old.output.ghost_name }
        ensures wrote { Appends self.old (tab ∷ T.text n) self.new }
        ensures upper_bound { self.new.at ≤ self.old.at + (T.most + 1) }
    {
        self.word(b"\t");
        self.at = place_behind(self.at, n.put(self.output, self.at));
    }

    // Writes octets as they are.
    pub fn word(&mut self, octets: &[u8])
        ensures same_output { self.new.output.ghost_name ≡ self.old.output.ghost_name }
        ensures wrote { Appends self.old octets.now self.new }
        ensures upper_bound { self.new.at ≤ self.old.at + length octets.now }
    {
        octets_put::put(self.output, self.at, octets);
        self.at = place_behind(self.at, octets.len());
    }
}

// The place so many octets behind another, or the highest place where that would pass it.
fn place_behind(at: usize, n: usize) -> usize
    ensures value { result ≡ place_behind at n }
    ensures lower_bound { at ≤ result }
{
    at.saturating_add(n)
}

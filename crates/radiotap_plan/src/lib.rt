// The plan of a radiotap header that is to be written: whether the edition knows every set bit of its presence word, and
// how long the header and its values are.
#![tactic(auto)]

ghost use Rattle.radiotap_plan.specs.Says.{PlanSays};

// The fixed header: version, pad, length, presence word.
pub const FIXED_LENGTH: u32 = 8;

// What a presence word asks for in an edition: the header's length, and the values'.
#[derive(Clone, Copy)]
pub struct Plan {
    pub size: u16,
    pub summed: usize,
}

// Adds up the fields of a presence word in the edition taken, set bit by set bit; none where the edition doesn't know
// one of them.
pub fn planned(taken: u32, presence: u32) -> Option<Plan>
    ensures { PlanSays taken presence result }
{
    let mut at = FIXED_LENGTH;
    let mut summed = 0;
    for bit in radiotap_bits::set_bits(presence) {
        let field = radiotap_table::lay(taken, bit as usize, at)?;
        let long = field.size as usize;
        at = (field.start + long) as u32;
        summed += long;
    }
    Some(Plan {
        size: at as u16,
        summed,
    })
}

// The struct of the C boundary for an answer that has no values of its own. Kind 0 is a refusal, 1 done: numbers, since C
// reads them.
#![tactic(auto)]

ghost use Rattle.std.specs.Prelude.{◌≡◌};
ghost use Rattle.refusals.specs.Says.{number_of};
ghost use Rattle.boundary_done.specs.Rows.{refused_row, filled_row};

use refusals::Refusal;

// zalghimo_done
#[repr(C)]
#[derive(Clone, Copy)]
pub struct Done {
    pub kind: u64,
    pub number: u64,
    pub place: u64,
}

// A refusal.
pub fn refused(refusal: Refusal) -> Done
    ensures { result ≡ refused_row (number_of refusal.reason) refusal.place }
{
    Done {
        kind: 0,
        number: refusal.reason.number() as u64,
        place: refusal.place as u64,
    }
}

// Done.
pub fn filled() -> Done
    ensures { result ≡ filled_row }
{
    Done {
        kind: 1,
        number: 0,
        place: 0,
    }
}

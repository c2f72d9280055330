// The struct of the C boundary for every writer, and a writer's answer as one. Kind 0 is a refusal, 1 values: numbers, since
// C reads them. The row is made by a function: a From is as long, and its call would not name the row.
#![tactic(auto)]

ghost use Rattle.std.specs.Prelude.{◌≡◌};
ghost use Rattle.refusals.specs.Says.{says};
ghost use Rattle.boundary_write.specs.Rows.{written_row};

use refusals::Refusal;

// zalghimo_written
#[repr(C)]
#[derive(Clone, Copy)]
pub struct Written {
    pub kind: u64,
    pub number: u64,
    pub place: u64,
    pub next: u64,
}

pub fn row(answer: Result<usize, Refusal>) -> Written
    ensures { result ≡ written_row (says answer) }
{
    match answer {
        Ok(next) => Written {
            kind: 1,
            number: 0,
            place: 0,
            next: next as u64,
        },
        Err(refusal) => Written {
            kind: 0,
            number: refusal.reason.number() as u64,
            place: refusal.place as u64,
            next: 0,
        },
    }
}

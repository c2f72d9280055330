// The struct of the C boundary for the tally, and the nine numbers that a tally is lent as. Kind 0 is a refusal, 1 an
// update done.
#![tactic(auto)]

ghost use Rattle.std.specs.Prelude.{◌≡◌};
ghost use Rattle.refusals.specs.Says.{says};
ghost use Rattle.boundary_tally.specs.Rows.{tally_of, numbers_of, done_row, tally_after};

use refusals::Refusal;
use tally_rules::Tally;

// zalghimo_done
#[repr(C)]
#[derive(Clone, Copy)]
pub struct Done {
    pub kind: u64,
    pub number: u64,
    pub place: u64,
}

// What an update answers.
pub fn row(update: Result<Tally, Refusal>) -> Done
    ensures { result ≡ done_row (says update) }
{
    match update {
        Ok(_) => Done {
            kind: 1,
            number: 0,
            place: 0,
        },
        Err(refusal) => Done {
            kind: 0,
            number: refusal.reason.number() as u64,
            place: refusal.place as u64,
        },
    }
}

// This and the next are no From: neither Tally nor an array is a type of this crate.

// The tally of nine numbers, the last drop number taken modulo 2^32.
pub fn tally_of(numbers: [u64; 9]) -> Tally
    ensures { result ≡ tally_of numbers }
{
    Tally {
        records: numbers[0],
        received: numbers[1],
        commands: numbers[2],
        octets: numbers[3],
        lost: numbers[4],
        last: (numbers[5] % 4294967296) as u32,
        truncated: numbers[6],
        sent: numbers[7],
        data: numbers[8],
    }
}

// The nine numbers of a tally.
pub fn numbers_of(tally: Tally) -> [u64; 9]
    ensures { result ≡ numbers_of tally }
{
    [
        tally.records,
        tally.received,
        tally.commands,
        tally.octets,
        tally.lost,
        tally.last as u64,
        tally.truncated,
        tally.sent,
        tally.data,
    ]
}

// Puts the tally that an update gives into the lent numbers; a refusal leaves them as found.
pub fn put(numbers: &mut [u64; 9], update: Result<Tally, Refusal>)
    ensures { numbers.new ≡ tally_after numbers.old (says update) }
{
    if let Ok(tally) = update {
        *numbers = numbers_of(tally);
    }
}

// Where a reader over a radiotap header stands, what it answers there and where it moves on to. A place is a cursor, or the
// refusal of the octets that the reader was made over.
#![tactic(auto)]

ghost use Rattle.std.specs.Prelude.{◌≡◌};
ghost use Rattle.refusals.specs.Says.{says};
ghost use Rattle.radiotap_rules.specs.Table.{our_rules};
ghost use Rattle.radiotap_step.specs.Says.{step_says, StepSized};
ghost use Rattle.radiotap_place.specs.Places.{fresh_place, answer_at, moved_on};
ghost use Rattle.radiotap_place.specs.Says.{BehindSays};

use radiotap_rules::Cursor;
use radiotap_step::Step;
use refusals::{Reason, Refusal};

// The place of a reader made over octets in an edition. The header is judged whole.
pub fn fresh(s: &[u8], edition: u32) -> Result<Cursor, Refusal>
    ensures { says result ≡ fresh_place our_rules edition s.now }
{
    let _judged = radiotap::read(s, edition)?;
    let head = radiotap_head::read(s)?;
    Ok(radiotap_head::start(head))
}

// What a reader answers at a place in an edition. An edition that is not served is refused, whatever the place.
pub fn answer_at(s: &[u8], edition: u32, place: Result<Cursor, Refusal>) -> Result<Step, Refusal>
    ensures result_value { step_says s.now result ≡ answer_at our_rules edition s.now (says place) }
    ensures step_sized { StepSized result }
{
    match place {
        Ok(cursor) => radiotap_step::next(s, edition, cursor),
        Err(refusal) if radiotap_table::served(edition) => Err(refusal),
        Err(_) => Err(Reason::Edition.at(0)),
    }
}

// The place behind what is answered at a place: the cursor behind a field; a refusal, the end and a stop stay.
pub fn behind(
    answer: Result<Step, Refusal>,
    place: Result<Cursor, Refusal>,
) -> Result<Cursor, Refusal>
    ensures { BehindSays answer place result }
{
    match answer {
        Ok(Step::Field(field)) => Ok(field.next),
        _ => place,
    }
}

// The place that a reader moves on to.
pub fn after(s: &[u8], edition: u32, place: Result<Cursor, Refusal>) -> Result<Cursor, Refusal>
    ensures { says result ≡ moved_on our_rules edition s.now (says place) }
{
    behind(answer_at(s, edition, place), place)
}

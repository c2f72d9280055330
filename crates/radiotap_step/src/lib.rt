// The step of a walk over a radiotap header's fields: from a cursor to the next field.
#![tactic(auto)]

ghost use Rattle.std.specs.Prelude.{◌≡◌, ◌<◌};
ghost use Rattle.radiotap_rules.specs.Table.{our_rules};
ghost use Rattle.radiotap_rules.specs.Steps.{step_of};
ghost use Rattle.radiotap_rules.specs.Answers.{lies, lay_of};
ghost use Rattle.radiotap_step.specs.Asked.{step_in};
ghost use Rattle.radiotap_step.specs.Met.{starts_in};
ghost use Rattle.radiotap_step.specs.Says.{step_says, StepSized, MeetSays};

use numbers::Number;
use radiotap_rules::Cursor;
use radiotap_table::Lies;
use refusals::{Reason, Refusal};

// Where a reading stops: the word and bit of a field that the edition doesn't know.
#[derive(Clone, Copy)]
pub struct Stop {
    pub word: u32,
    pub bit: u32,
}

// A field that is met: its word and bit, its start and its size, and the cursor behind it.
#[derive(Clone, Copy)]
pub struct Field {
    pub word: u32,
    pub bit: u32,
    pub start: usize,
    pub size: u8,
    pub next: Cursor,
}

// What a step meets: the end, a stop, or a field.
#[derive(Clone, Copy)]
pub enum Step {
    End,
    Stop(Stop),
    Field(Field),
}

// Steps from a cursor to the next field in an edition. An edition that is not served is refused, whatever the cursor.
pub fn next(s: &[u8], edition: u32, cursor: Cursor) -> Result<Step, Refusal>
    ensures result_value { step_says s.now result ≡ step_in our_rules edition s.now cursor }
    ensures step_sized { StepSized result }
{
    if radiotap_table::served(edition) {
        next_taken(s, radiotap_table::reading(edition), cursor)
    } else {
        Err(Reason::Edition.at(0))
    }
}

// Steps from a cursor to the next field in the edition taken, which a walk judges once and not at each step: from set bit
// to set bit of the presence word that the cursor holds. No field of a continued word is known.
pub fn next_taken(s: &[u8], taken: u32, cursor: Cursor) -> Result<Step, Refusal>
    ensures result_value { step_says s.now result ≡ step_of our_rules taken s.now cursor }
    ensures step_sized { StepSized result }
{
    let mut position = cursor.position;
    let mut bits = cursor.bits;
    let mut again = starts_again(s, position / 32);
    // Goes from set bit to set bit and not by an index; an iterator over positions would test every bit.
    while position / 32 < cursor.words as u32 {
        let word = position / 32;
        let bit = radiotap_bits::next_set(bits, position % 32);
        if bit < 31 {
            if bit != 29 {
                if again {
                    return meet(taken, cursor, word, bit, bits);
                }
                return Ok(Step::Stop(Stop { word, bit }));
            }
            position = 32 * word + 30;
        } else {
            position = 32 * word + 32;
            again = radiotap_bits::resets(bits);
            bits = u32::le_at(s, 4 + 4 * (word as usize + 1));
        }
    }
    Ok(Step::End)
}

// Whether a word numbers its bits from 0 again: word 0 does, and another by the word before it in the input.
fn starts_again(s: &[u8], word: u32) -> bool
    ensures { result ≡ starts_in s.now word }
{
    if word == 0 {
        return true;
    }
    radiotap_bits::resets(u32::le_at(s, 4 * word as usize))
}

// What a step meets at a set bit of a word that starts again, whose bits are held, in the edition taken.
fn meet(taken: u32, cursor: Cursor, word: u32, bit: u32, bits: u32) -> Result<Step, Refusal>
    requires { (word < 256) × (bit < 31) }
    ensures { MeetSays cursor word bit bits (lay_of our_rules taken bit cursor.at) result }
{
    match radiotap_table::lay(taken, bit as usize, cursor.at) {
        None => Ok(Step::Stop(Stop { word, bit })),
        Some(laid) => found(cursor, word, bit, bits, laid),
    }
}

// A known field that starts at a place: shown with the cursor behind it, or refused where it runs past the length.
fn found(cursor: Cursor, word: u32, bit: u32, bits: u32, laid: Lies) -> Result<Step, Refusal>
    requires { (word < 256) × (bit < 31) × (laid.start < 4294967552) }
    ensures { MeetSays cursor word bit bits (lies laid.start laid.size) result }
{
    let end = laid.start + laid.size as usize;
    if end <= cursor.size as usize {
        Ok(Step::Field(Field {
            word,
            bit,
            start: laid.start,
            size: laid.size,
            next: Cursor {
                size: cursor.size,
                words: cursor.words,
                position: 32 * word + bit + 1,
                bits,
                at: end as u32,
            },
        }))
    } else {
        Err(Reason::FieldPastLength.at(laid.start))
    }
}

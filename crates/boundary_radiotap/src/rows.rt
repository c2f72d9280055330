// The answers of the radiotap readers as structs of the C boundary.
// Functions and no `From`, as in the other crates of the boundary: a caller would name the struct just so, and the
// promise would stand as `from_gives`, in place of a clause.
ghost use Rattle.std.specs.Prelude.{◌≡◌};
ghost use Rattle.refusals.specs.Says.{says_by};
ghost use Rattle.radiotap_head.specs.Says.{word_of};
ghost use Rattle.radiotap.specs.Says.{summary_of};
ghost use Rattle.boundary_radiotap.specs.Rows.{radiotap_row, word_row, FieldRow};

use crate::{Field, Radiotap, Word};
use radiotap::Reading;
use radiotap_field::FieldAnswer;
use refusals::Refusal;

pub fn radiotap(answer: Result<Reading, Refusal>) -> Radiotap
    ensures { result ≡ radiotap_row (says_by summary_of answer) }
{
    match answer {
        Err(refusal) => Radiotap {
            number: refusal.reason.number() as u64,
            place: refusal.place as u64,
            ..Radiotap::default()
        },
        Ok(reading) => {
            let (kind, word, bit) = match reading.stop {
                None => (1, 0, 0),
                Some(stop) => (4, stop.word as u64, stop.bit as u64),
            };
            Radiotap {
                kind,
                fields: reading.fields as u64,
                frame: reading.frame as u64,
                word,
                bit,
                pad: reading.pad as u64,
                words: reading.words as u64,
                ..Radiotap::default()
            }
        }
    }
}

pub fn word(answer: Result<Option<u32>, Refusal>) -> Word
    ensures { result ≡ word_row (says_by word_of answer) }
{
    match answer {
        Err(refusal) => Word {
            number: refusal.reason.number() as u64,
            place: refusal.place as u64,
            ..Word::default()
        },
        Ok(None) => Word {
            kind: 2,
            ..Word::default()
        },
        Ok(Some(value)) => Word {
            kind: 1,
            value: value as u64,
            ..Word::default()
        },
    }
}

pub fn field(answer: Result<FieldAnswer, Refusal>) -> Field
    ensures { FieldRow answer result }
{
    match answer {
        Err(refusal) => Field {
            number: refusal.reason.number() as u64,
            place: refusal.place as u64,
            ..Field::default()
        },
        Ok(FieldAnswer::End) => Field {
            kind: 2,
            ..Field::default()
        },
        Ok(FieldAnswer::Stop(stop)) => Field {
            kind: 4,
            word: stop.word as u64,
            bit: stop.bit as u64,
            ..Field::default()
        },
        Ok(FieldAnswer::Field(field)) => Field {
            kind: 1,
            word: field.word as u64,
            bit: field.bit as u64,
            start: field.start as u64,
            size: field.size as u64,
            ..Field::default()
        },
    }
}

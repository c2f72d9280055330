// Answers the stored question about a radiotap field by its number: 14.
ghost use Rattle.std.specs.Prelude.{◌≡◌};
ghost use Rattle.radiotap_rules.specs.Table.{our_rules};
ghost use Rattle.radiotap_step.specs.Says.{step_says};
ghost use Rattle.radiotap_place.specs.Places.{fresh_place, moved_on, answer_at};
ghost use Rattle.vectors.specs.Questions.{is_among};

use crate::question_lines;
use crate::question_lines::{Question, low32};
use radiotap_dbm::DbmAnswer;
use radiotap_reader::FieldReader;
use radiotap_step::Step;
use refusals::Refusal;

// Writes the answer behind its kind; tells whether the question is this one.
pub fn answer(question: Question) -> bool
    ensures { result ≡ is_among 14 14 question.entry.kind }
{
    let own = question.is_among(14, 14);
    if own {
        let [edition, number, _, _, _] = question.parameters;
        field(question.first, low32(edition), number as usize);
    }
    own
}

// The field by the C boundary, its octets, its dBm value, and what a reader answers that has passed so many fields, and
// one that has passed one.
fn field(s: &[u8], edition: u32, number: usize) {
    let r = zalghimo::zalghimo_radiotap_field(s, edition, number);
    question_lines::numbers(&[r.kind, r.number, r.place, r.word, r.bit, r.start, r.size]);
    question_lines::octets(radiotap_field::octets_of(s, edition, number));
    dbm(radiotap_dbm::read(s, edition, number));
    step(radiotap_reader::after_moves(s, edition, number));
    step(moved_once(s, edition));
}

// What a reader answers that is made over octets and moved on once.
fn moved_once(s: &[u8], edition: u32) -> Result<Step, Refusal>
    ensures { step_says s.now result ≡ answer_at our_rules edition s.now (moved_on our_rules edition s.now (fresh_place our_rules edition s.now)) }
{
    FieldReader::new(s, edition).moved().next()
}

// Kind, number, place, word, bit and value; kind 5 is a field that is no dBm field.
fn dbm(answer: Result<DbmAnswer, Refusal>) {
    match answer {
        Err(refusal) => {
            let number = refusal.reason.number() as u64;
            question_lines::numbers(&[0, number, refusal.place as u64, 0, 0, 0]);
        }
        Ok(DbmAnswer::End) => {
            question_lines::numbers(&[2, 0, 0, 0, 0, 0]);
        }
        Ok(DbmAnswer::Stop(stop)) => {
            question_lines::numbers(&[4, 0, 0, stop.word as u64, stop.bit as u64, 0]);
        }
        Ok(DbmAnswer::NotDbm) => {
            question_lines::numbers(&[5, 0, 0, 0, 0, 0]);
        }
        Ok(DbmAnswer::Dbm(value)) => {
            let power = i64::from(value).cast_unsigned();
            question_lines::numbers(&[1, 0, 0, 0, 0, power]);
        }
    }
}

// Kind, number, place, word, bit, start and size.
fn step(answer: Result<Step, Refusal>) {
    match answer {
        Err(refusal) => {
            let number = refusal.reason.number() as u64;
            question_lines::numbers(&[0, number, refusal.place as u64, 0, 0, 0, 0]);
        }
        Ok(Step::End) => {
            question_lines::numbers(&[2, 0, 0, 0, 0, 0, 0]);
        }
        Ok(Step::Stop(stop)) => {
            question_lines::numbers(&[4, 0, 0, stop.word as u64, stop.bit as u64, 0, 0]);
        }
        Ok(Step::Field(field)) => {
            question_lines::numbers(&[
                1,
                0,
                0,
                field.word as u64,
                field.bit as u64,
                field.start as u64,
                field.size as u64,
            ]);
        }
    }
}

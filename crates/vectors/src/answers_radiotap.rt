// Answers the stored questions about reading radiotap: 11 to 13.
ghost use Rattle.std.specs.Prelude.{◌≡◌};
ghost use Rattle.vectors.specs.Questions.{is_among};

use crate::question_lines;
use crate::question_lines::{Question, low32};
use boundary_radiotap::Radiotap;

// The most numbers of a list that a question asks to fill.
const MOST_NUMBERS: usize = 64;

// Writes the answer behind its kind; tells whether the question is one of these.
pub fn answer(question: Question) -> bool
    ensures { result ≡ is_among 11 13 question.entry.kind }
{
    let own = question.is_among(11, 13);
    if own {
        read(question);
    }
    own
}

fn read(question: Question) {
    let s = question.first;
    let [a, b, number, _, _] = question.parameters;
    match question.kind {
        11 => header(s, low32(a)),
        12 => word(s, a as usize),
        _ => fields(s, low32(a), b as usize, number),
    }
}

fn header(s: &[u8], edition: u32) {
    shown(zalghimo::zalghimo_radiotap_read(s, edition));
    question_lines::octets(radiotap::frame(s, edition));
}

fn word(s: &[u8], number: usize) {
    let r = zalghimo::zalghimo_radiotap_word(s, number);
    question_lines::numbers(&[r.kind, r.number, r.place, r.value]);
}

// All fields into a list of so many numbers, each of them the given one before.
fn fields(s: &[u8], edition: u32, count: usize, number: u64) {
    let mut room = [number; MOST_NUMBERS];
    let list = &mut room[..count.min(MOST_NUMBERS)];
    shown(zalghimo::zalghimo_radiotap_fields(s, edition, list));
    question_lines::numbers(list);
}

fn shown(r: Radiotap) {
    question_lines::numbers(&[
        r.kind, r.number, r.place, r.fields, r.frame, r.word, r.bit, r.pad, r.words,
    ]);
}

// Answers the stored question about numbers in octets: 19.
ghost use Rattle.std.specs.Prelude.{◌≡◌};
ghost use Rattle.vectors.specs.Questions.{is_among};

use crate::question_lines;
use crate::question_lines::{Question, low16, low32, room, within};
use numbers::Number;

// Writes the answer behind its kind; tells whether the question is this one.
pub fn answer(question: Question) -> bool
    ensures { result ≡ is_among 19 19 question.entry.kind }
{
    let own = question.is_among(19, 19);
    if own {
        numbers(question);
    }
    own
}

// The number in every form: of 16, 32 and 64 bits, most significant octet first and then least.
fn numbers(question: Question) {
    let n = question.parameters[0];
    big(low16(n), question);
    big(low32(n), question);
    big(n, question);
    little(low16(n), question);
    little(low32(n), question);
    little(n, question);
}

// A number, most significant octet first, in an output of its own.
fn big<T: Number + Into<u64>>(n: T, question: Question) {
    let mut room = room(question.first);
    let out = &mut room[..within(question.first)];
    let place = question.parameters[1] as usize;
    n.put_be(out, place);
    shown(T::be_at(out, place).into(), out);
}

// A number, least significant octet first, in an output of its own.
fn little<T: Number + Into<u64>>(n: T, question: Question) {
    let mut room = room(question.first);
    let out = &mut room[..within(question.first)];
    let place = question.parameters[1] as usize;
    n.put_le(out, place);
    shown(T::le_at(out, place).into(), out);
}

// The number read back, and the whole output.
fn shown(n: u64, out: &[u8]) {
    question_lines::numbers(&[n]);
    question_lines::octets(out);
}

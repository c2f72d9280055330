// Answers the stored questions about BTSnoop's times, drops and writing: 6 to 10.
ghost use Rattle.std.specs.Prelude.{◌≡◌};
ghost use Rattle.vectors.specs.Questions.{is_among};

use crate::question_lines;
use crate::question_lines::{Question, low32, room, within};
use boundary_write::Written;
use twos_complement::TwosComplement;

// Writes the answer behind its kind; tells whether the question is one of these.
pub fn answer(question: Question) -> bool
    ensures { result ≡ is_among 6 10 question.entry.kind }
{
    let own = question.is_among(6, 10);
    if own {
        write(question);
    }
    own
}

fn write(question: Question) {
    let a = question.parameters[0];
    let b = question.parameters[1];
    match question.kind {
        6 => read_time(a),
        7 => write_time(a, b),
        8 => drops(a, b),
        9 => write_header(question.first, a as usize, b),
        _ => write_record(question),
    }
}

fn read_time(field: u64) {
    let r = zalghimo::zalghimo_btsnoop_read_time(i64::of_bits(field));
    question_lines::numbers(&[
        r.kind,
        r.number,
        r.place,
        r.seconds.cast_unsigned(),
        r.microseconds,
    ]);
}

fn write_time(seconds: u64, microseconds: u64) {
    let r = zalghimo::zalghimo_btsnoop_write_time(i64::of_bits(seconds), low32(microseconds));
    question_lines::numbers(&[r.kind, r.number, r.place, r.field.cast_unsigned()]);
}

fn drops(earlier: u64, later: u64) {
    let n = zalghimo::zalghimo_btsnoop_drops(low32(earlier), low32(later));
    question_lines::numbers(&[n as u64]);
}

fn write_header(before: &[u8], place: usize, datalink: u64) {
    let mut room = room(before);
    let out = &mut room[..within(before)];
    let r = zalghimo::zalghimo_btsnoop_write_header(out, place, low32(datalink));
    written(r, out);
}

fn write_record(question: Question) {
    let mut room = room(question.first);
    let out = &mut room[..within(question.first)];
    let [place, original, flags, drops, time] = question.parameters;
    let r = zalghimo::zalghimo_btsnoop_write_record(
        out,
        place as usize,
        low32(original),
        low32(flags),
        low32(drops),
        i64::of_bits(time),
        question.second,
    );
    written(r, out);
}

fn written(r: Written, out: &[u8]) {
    question_lines::numbers(&[r.kind, r.number, r.place, r.next]);
    question_lines::octets(out);
}

// Answers the stored questions about reading BTSnoop: 1 to 5.
ghost use Rattle.std.specs.Prelude.{◌≡◌};
ghost use Rattle.vectors.specs.Questions.{is_among};

use crate::question_lines;
use crate::question_lines::Question;

// Writes the answer behind its kind; tells whether the question is one of these.
pub fn answer(question: Question) -> bool
    ensures { result ≡ is_among 1 5 question.entry.kind }
{
    let own = question.is_among(1, 5);
    if own {
        read(question);
    }
    own
}

fn read(question: Question) {
    let a = question.parameters[0] as usize;
    let b = question.parameters[1] as usize;
    match question.kind {
        1 => header(question.first),
        2 => check(question.first),
        3 => record(question.first, a),
        4 => survey(question.first, a, b),
        _ => earlier(question.first, a, question.second, b),
    }
}

fn header(s: &[u8]) {
    let r = zalghimo::zalghimo_btsnoop_header(s);
    question_lines::numbers(&[r.kind, r.number, r.place, r.datalink]);
}

fn check(s: &[u8]) {
    let r = zalghimo::zalghimo_btsnoop_check(s);
    question_lines::numbers(&[r.kind, r.number, r.place, r.datalink, r.records]);
}

fn record(s: &[u8], place: usize) {
    let r = zalghimo::zalghimo_btsnoop_record(s, place);
    let time = r.time.cast_unsigned();
    question_lines::numbers(&[
        r.kind, r.number, r.place, r.original, r.included, r.flags, r.drops, time, r.packet, r.next,
    ]);
    question_lines::octets(btsnoop_record::packet(s, place));
}

fn survey(s: &[u8], place: usize, number: usize) {
    let r = zalghimo::zalghimo_btsnoop_survey(s, place, number);
    question_lines::numbers(&[r.kind, r.number, r.place, r.count, r.reached]);
}

fn earlier<'a>(first: &'a [u8], first_at: usize, second: &'a [u8], second_at: usize) {
    let r = zalghimo::zalghimo_btsnoop_earlier(first, first_at, second, second_at);
    question_lines::numbers(&[r.kind, r.number, r.place, r.capture, r.packet, r.size]);
    question_lines::octets(btsnoop_earlier::packet(first, first_at, second, second_at));
}

// Answers the stored question about writing radiotap: 15.
ghost use Rattle.std.specs.Prelude.{◌≡◌};
ghost use Rattle.vectors.specs.Questions.{is_among};

use crate::question_lines;
use crate::question_lines::{Question, low32, room, within};

// Writes the answer behind its kind; tells whether the question is this one.
pub fn answer(question: Question) -> bool
    ensures { result ≡ is_among 15 15 question.entry.kind }
{
    let own = question.is_among(15, 15);
    if own {
        write(question);
    }
    own
}

fn write(question: Question) {
    let mut room = room(question.first);
    let out = &mut room[..within(question.first)];
    let [place, edition, presence, _, _] = question.parameters;
    let r = zalghimo::zalghimo_radiotap_write(
        out,
        place as usize,
        low32(edition),
        low32(presence),
        question.second,
    );
    question_lines::numbers(&[r.kind, r.number, r.place, r.next]);
    question_lines::octets(out);
}

// Answers the stored questions about the LE pseudo-header: 16 and 17.
ghost use Rattle.std.specs.Prelude.{◌≡◌};
ghost use Rattle.vectors.specs.Questions.{is_among};

use crate::question_lines;
use crate::question_lines::{Question, low16, low32, room, within};

// Writes the answer behind its kind; tells whether the question is one of these.
pub fn answer(question: Question) -> bool
    ensures { result ≡ is_among 16 17 question.entry.kind }
{
    let own = question.is_among(16, 17);
    if own {
        ask(question);
    }
    own
}

fn ask(question: Question) {
    match question.kind {
        16 => read(question.first),
        _ => write(question),
    }
}

fn read(s: &[u8]) {
    let r = zalghimo::le::zalghimo_le_read(s);
    question_lines::numbers(&[
        r.kind,
        r.number,
        r.place,
        r.channel,
        r.signal.cast_unsigned(),
        r.noise.cast_unsigned(),
        r.offences,
        r.reference,
        r.flags,
        r.known,
        r.pdu,
        r.phy,
        r.dependent,
        r.packet,
    ]);
    question_lines::octets(le_header::packet(s));
}

// The four values of one octet are the last octets of the question's second number.
fn write(question: Question) {
    let mut room = room(question.first);
    let out = &mut room[..within(question.first)];
    let [place, values, reference, flags, _] = question.parameters;
    let [_, _, _, _, rf_channel, signal, noise, offences] = values.to_be_bytes();
    let r = zalghimo::le::zalghimo_le_write(
        out,
        place as usize,
        rf_channel,
        signal.cast_signed(),
        noise.cast_signed(),
        offences,
        low32(reference),
        low16(flags),
        question.second,
    );
    question_lines::numbers(&[r.kind, r.number, r.place, r.next]);
    question_lines::octets(out);
}

// Answers the stored question about a capture as it arrives: 20.
ghost use Rattle.std.specs.Prelude.{◌≡◌};
ghost use Rattle.vectors.specs.Questions.{is_among};

use crate::question_lines;
use crate::question_lines::Question;
use stream_state::{Stream, Taken};

// Writes the answer behind its kind; tells whether the question is this one.
pub fn answer(question: Question) -> bool
    ensures { result ≡ is_among 20 20 question.entry.kind }
{
    let own = question.is_among(20, 20);
    if own {
        stream(
            fresh(question.parameters[0]),
            question.first,
            question.second,
        );
    }
    own
}

// The state before the first octet, in which so many octets are said to have been taken.
fn fresh(octets: u64) -> Stream {
    Stream {
        octets,
        ..zalghimo::stream::zalghimo_stream_fresh()
    }
}

// A stream in chunks of these lengths; then its end, a chunk of all that is left, and its end again.
fn stream(first: Stream, s: &[u8], lengths: &[u8]) {
    let mut state = first;
    let mut left = s;
    for &length in lengths {
        let r = take(state, &left[..left.len().min(length as usize)]);
        let Some((_, behind)) = left.split_at_checked(r.taken as usize) else {
            return;
        };
        left = behind;
        state = r.state;
    }
    over(state, left);
}

// The end, a chunk behind it, and the end again.
fn over(state: Stream, left: &[u8]) {
    let ended = end(state);
    let again = take(ended.state, left);
    end(again.state);
}

// A call with a chunk: its numbers, and the packet octets that it hands out of the chunk.
fn take(state: Stream, chunk: &[u8]) -> Taken {
    let r = zalghimo::stream::zalghimo_stream_take(state, chunk);
    shown(r);
    question_lines::octets(stream_state::part(r, chunk));
    r
}

// The call that says that the stream has ended.
fn end(state: Stream) -> Taken {
    let r = zalghimo::stream::zalghimo_stream_end(state);
    shown(r);
    r
}

// The numbers of an answer, and how many octets the state says were taken.
fn shown(r: Taken) {
    question_lines::numbers(&[
        r.kind,
        r.number,
        r.place,
        r.taken,
        r.part,
        r.size,
        r.position,
        r.datalink,
        r.start,
        r.original,
        r.included,
        r.flags,
        r.drops,
        r.time.cast_unsigned(),
        r.state.octets,
    ]);
}

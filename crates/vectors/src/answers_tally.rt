// Answers the stored question about the tally: 18.
ghost use Rattle.std.specs.Prelude.{◌≡◌};
ghost use Rattle.refusals.specs.Says.{says};
ghost use Rattle.tally_rules.specs.Tally.{updating, after_update};
ghost use Rattle.vectors.specs.Questions.{is_among};

use crate::question_lines;
use crate::question_lines::{Question, low32};
use boundary_tally::Done;
use numbers::Number;
use refusals::Refusal;
use tally_rules::{Entry, Tally};

// Writes the answer behind its kind; tells whether the question is this one.
pub fn answer(question: Question) -> bool
    ensures { result ≡ is_among 18 18 question.entry.kind }
{
    let own = question.is_among(18, 18);
    if own {
        tally(question);
    }
    own
}

// The nine numbers of the tally are the first octets, 8 each; they are lent to the C function, and as a tally.
fn tally(question: Question) {
    let mut numbers = [0; 9];
    for i in 0..9 {
        numbers[i] = u64::be_at(question.first, 8 * i);
    }
    let [original, included, flags, drops, _] = question.parameters;
    let entry = Entry {
        original: low32(original),
        included: low32(included),
        flags: low32(flags),
        drops: low32(drops),
    };
    let (update, held) = lent(boundary_tally::tally_of(numbers), entry);
    let r = zalghimo::tallying::zalghimo_btsnoop_tally(
        &mut numbers,
        entry.original,
        entry.included,
        entry.flags,
        entry.drops,
    );
    shown(r, numbers);
    shown(
        boundary_tally::row(update),
        boundary_tally::numbers_of(held),
    );
}

// A tally lent to an update: what the update gives, and the tally that it leaves.
fn lent(tally: Tally, entry: Entry) -> (Result<Tally, Refusal>, Tally)
    ensures update { says result.0 ≡ updating tally entry }
    ensures held { result.1 ≡ after_update tally (updating tally entry) }
{
    let mut held = tally;
    let update = tally::update(&mut held, entry);
    (update.map(|()| held), held)
}

// An update's answer, and the nine numbers of the tally afterwards.
fn shown(r: Done, numbers: [u64; 9]) {
    question_lines::numbers(&[r.kind, r.number, r.place]);
    question_lines::numbers(&numbers);
}

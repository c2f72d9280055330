// A reader that walks over a radiotap header from one field to the next: a small struct that holds the header, the
// edition and its place. The work is done by radiotap_place's functions with plain parameters; those over the struct are
// thin.
#![tactic(auto)]

ghost use Rattle.std.specs.Prelude.{◌≡◌};
ghost use Rattle.radiotap_rules.specs.Table.{our_rules};
ghost use Rattle.radiotap_rules.specs.Reading.{reading, field_of};
ghost use Rattle.radiotap_rules.specs.Steps.{shown_by};
ghost use Rattle.radiotap_step.specs.Says.{step_says, StepSized};
ghost use Rattle.radiotap_reader.specs.Reader.{answer_after};
ghost use Rattle.radiotap_reader.specs.Says.{NewReader, reader_answer, MovedReader, StaysSays};

use radiotap_rules::Cursor;
use radiotap_step::Step;
use refusals::Refusal;

// A reader: the header, the edition that it is read in, and the reader's place. It is no Iterator: it stays at a refusal, the
// end and a stop, and answers the same for ever, where an Iterator would have ended.
#[derive(Clone, Copy)]
pub struct FieldReader<'a> {
    pub header: &'a [u8],
    pub edition: u32,
    pub place: Result<Cursor, Refusal>,
}

impl<'a> FieldReader<'a> {
    // A reader over octets in an edition, before the first field.
    pub fn new(header: &'a [u8], edition: u32) -> FieldReader<'a>
        ensures { NewReader header.entry edition result }
    {
        let place = radiotap_place::fresh(header, edition);
        FieldReader {
            header,
            edition,
            place,
        }
    }

    // What a reader answers next.
    pub fn next(self) -> Result<Step, Refusal>
        ensures result_value { step_says self.entry.header.now result ≡ reader_answer self.entry }
        ensures step_sized { StepSized result }
    {
        radiotap_place::answer_at(self.header, self.edition, self.place)
    }

    // A reader moved on behind what it answers next.
    pub fn moved(self) -> FieldReader<'a>
        ensures { MovedReader self.entry result }
    {
        let place = radiotap_place::after(self.header, self.edition, self.place);
        FieldReader {
            header: self.header,
            edition: self.edition,
            place,
        }
    }
}

// Whether a reader stays at an answer: at a refusal, the end and a stop.
fn stays(answer: Result<Step, Refusal>) -> bool
    ensures { StaysSays answer result }
{
    match answer {
        Ok(Step::Field(_)) => false,
        _ => true,
    }
}

// What a fresh reader answers after so many moves: field number `moves` of the reading, then the end or the named stop.
// It is moved on as far as it moves, however many moves are asked for.
pub fn after_moves(header: &[u8], edition: u32, moves: usize) -> Result<Step, Refusal>
    ensures result_value { step_says header.now result ≡ answer_after our_rules edition header.now moves }
    ensures field_shown { shown_by (step_says header.now result) ≡ field_of (reading our_rules edition header.now) moves }
    ensures step_sized { StepSized result }
{
    let mut reader = FieldReader::new(header, edition);
    for _moved in 0..moves {
        let answer = reader.next();
        if stays(answer) {
            return answer;
        }
        reader.place = radiotap_place::behind(answer, reader.place);
    }
    reader.next()
}

// A field of a radiotap header by its number, and its octets. A header is judged whole first: one refused at a field shows
// none.
#![tactic(auto)]

ghost use Rattle.std.specs.Prelude.{◌≡◌};
ghost use Rattle.refusals.specs.Refusals.{given};
ghost use Rattle.radiotap_rules.specs.Table.{our_rules};
ghost use Rattle.radiotap_rules.specs.Reading.{presence_words, read_words, reading, field_of};
ghost use Rattle.radiotap_rules.specs.Steps.{head_at};
ghost use Rattle.radiotap_rules.specs.Answers.{octets_of_field};
ghost use Rattle.radiotap_field.specs.Says.{field_says, FieldSized};
ghost use Rattle.radiotap_field.specs.Keeping.{kept_or as KeptOr};

use radiotap_rules::Head;
use radiotap_step::{Step, Stop};
use refusals::Refusal;

// A field that is shown: its word and bit, its start and its size.
#[derive(Clone, Copy)]
pub struct Shown {
    pub word: u32,
    pub bit: u32,
    pub start: usize,
    pub size: u8,
}

// What a field number is answered with: the field; at and past those shown the end or the named stop.
#[derive(Clone, Copy)]
pub enum FieldAnswer {
    End,
    Stop(Stop),
    Field(Shown),
}

// Reads a field by its number.
pub fn field(s: &[u8], edition: u32, number: usize) -> Result<FieldAnswer, Refusal>
    ensures result_value { field_says s.now result ≡ field_of (reading our_rules edition s.now) number }
    ensures field_sized { FieldSized s.now result }
{
    let head = radiotap::opened(s, edition)?;
    walk(s, radiotap_table::reading(edition), head, number)
}

// Walks over all fields behind a head in the edition taken, and keeps the field of a number: one pass.
fn walk(s: &[u8], taken: u32, head: Head, number: usize) -> Result<FieldAnswer, Refusal>
    requires { head_at s.now ≡ given head }
    ensures result_value { field_says s.now result ≡ field_of (read_words our_rules taken s.now head.size (presence_words s.now head.size)) number }
    ensures field_sized { FieldSized s.now result }
{
    let mut cursor = radiotap_head::start(head);
    let mut fields: usize = 0;
    let mut kept = None;
    // Goes from cursor to cursor: a step also ends the walk by a refusal or a stop, which an iterator's items don't.
    loop {
        match radiotap_step::next_taken(s, taken, cursor)? {
            Step::End => {
                return Ok(kept_or(kept, FieldAnswer::End));
            }
            Step::Stop(stop) => {
                return Ok(kept_or(kept, FieldAnswer::Stop(stop)));
            }
            Step::Field(field) => {
                if fields == number {
                    kept = Some(Shown {
                        word: field.word,
                        bit: field.bit,
                        start: field.start,
                        size: field.size,
                    });
                }
                fields += 1;
                cursor = field.next;
            }
        }
    }
}

// The field that a walk kept, or the answer where it kept none.
fn kept_or(kept: Option<Shown>, otherwise: FieldAnswer) -> FieldAnswer
    ensures { result ≡ KeptOr kept otherwise }
{
    match kept {
        Some(field) => FieldAnswer::Field(field),
        None => otherwise,
    }
}

// The octets of a field by its number, as a part of the input; empty where there is no field or the header is refused.
pub fn octets_of(s: &[u8], edition: u32, number: usize) -> &[u8]
    ensures { result.now ≡ octets_of_field (field_of (reading our_rules edition s.now) number) }
{
    match field(s, edition, number) {
        Ok(FieldAnswer::Field(field)) => octets::part(s, field.start, field.size as usize),
        _ => &s[..0],
    }
}

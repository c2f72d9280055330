// The value of a dBm field of a radiotap header, by the field's number.
#![tactic(auto)]

ghost use Rattle.std.specs.Prelude.{◌≡◌};
ghost use Rattle.radiotap_rules.specs.Table.{our_rules};
ghost use Rattle.radiotap_rules.specs.Reading.{reading, field_of};
ghost use Rattle.radiotap_rules.specs.Answers.{dbm_of};
ghost use Rattle.radiotap_dbm.specs.Says.{value_of, dbm_says, valued_as};

use radiotap_field::FieldAnswer;
use radiotap_step::Stop;
use refusals::Refusal;
use twos_complement::TwosComplement;

// The value of a dBm field; a field that is none has an answer of its own.
#[derive(Clone, Copy)]
pub enum DbmAnswer {
    End,
    Stop(Stop),
    NotDbm,
    Dbm(i8),
}

// The value of a dBm field by its number.
pub fn read(s: &[u8], edition: u32, number: usize) -> Result<DbmAnswer, Refusal>
    ensures { dbm_says result ≡ dbm_of (field_of (reading our_rules edition s.now) number) }
{
    match radiotap_field::field(s, edition, number)? {
        FieldAnswer::End => Ok(DbmAnswer::End),
        FieldAnswer::Stop(stop) => Ok(DbmAnswer::Stop(stop)),
        FieldAnswer::Field(field) => Ok(value(field.bit, octets::octet(s, field.start, 0))),
    }
}

// The value of a field with a bit whose first octet this is: bits 5, 6 and 10 are signed dBm.
fn value(bit: u32, octet: u8) -> DbmAnswer
    ensures { value_of result ≡ valued_as bit octet }
{
    match bit {
        5 | 6 | 10 => DbmAnswer::Dbm(i8::of_bits(octet)),
        _ => DbmAnswer::NotDbm,
    }
}

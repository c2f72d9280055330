// The functions of radiotap headers, as the C boundary has them.
#![tactic(auto)]

ghost use Rattle.std.specs.Prelude.{◌≡◌, length};
ghost use Rattle.radiotap_rules.specs.Table.{our_rules};
ghost use Rattle.radiotap_rules.specs.Reading.{reading, field_of};
ghost use Rattle.radiotap_rules.specs.Answers.{word_number, summary, listed_into};
ghost use Rattle.radiotap_rules.specs.Writing.{writing, written};
ghost use Rattle.boundary_write.specs.Rows.{written_row};
ghost use Rattle.boundary_radiotap.specs.Rows.{radiotap_row, word_row, field_row};

use boundary_radiotap::{Field, Radiotap, Word};
use boundary_write::Written;

// Reads a radiotap header in an edition.
pub fn read(input: &[u8], edition: u32) -> Radiotap
    ensures { result ≡ radiotap_row (summary input.now (reading our_rules edition input.now)) }
{
    boundary_radiotap::rows::radiotap(radiotap::read(input, edition))
}

// Reads a presence word of a radiotap header by its number.
pub fn word(input: &[u8], number: usize) -> Word
    ensures { result ≡ word_row (word_number input.now number) }
{
    boundary_radiotap::rows::word(radiotap_head::word(input, number))
}

// Reads a field of a radiotap header in an edition by its number.
pub fn field(input: &[u8], edition: u32, number: usize) -> Field
    ensures { result ≡ field_row (field_of (reading our_rules edition input.now) number) }
{
    boundary_radiotap::rows::field(radiotap_field::field(input, edition, number))
}

// Reads a radiotap header in an edition and puts its fields into a list of numbers, four a field.
pub fn fields(input: &[u8], edition: u32, fields: &mut [u64]) -> Radiotap
    ensures value { result ≡ radiotap_row (summary input.now (reading our_rules edition input.now)) }
    ensures fields_after { fields.new ≡ listed_into fields.old (reading our_rules edition input.now) }
{
    boundary_radiotap::rows::radiotap(radiotap_list::fields(input, edition, fields))
}

// Writes a radiotap header with one presence word into an output at a place.
pub fn write(output: &mut [u8], place: usize, edition: u32, presence: u32, values: &[u8]) -> Written
    ensures value { result ≡ written_row (writing our_rules (length output.old) place edition presence values.now) }
    ensures output_after { output.new ≡ written our_rules output.old place edition presence values.now }
{
    boundary_write::row(radiotap_write::write(output, place, edition, presence, values))
}

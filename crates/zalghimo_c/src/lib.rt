// The C boundary: each function asks nothing of its caller beyond valid pointers and lengths, and returns a struct of
// 64-bit numbers by value. include/zalghimo.h declares them for C. Each exports the function of its name of the crate
// zalghimo, with the same parameters and promise. The static library is libzalghimo.a.
#![tactic(auto)]

ghost use Rattle.std.specs.Prelude.{◌≡◌, length};
ghost use Rattle.btsnoop_rules.specs.Header.{header_at};
ghost use Rattle.btsnoop_rules.specs.Record.{record_at};
ghost use Rattle.btsnoop_rules.specs.File.{survey_at, file_at};
ghost use Rattle.btsnoop_rules.specs.Writing.{header_writing, header_written, record_writing, record_written};
ghost use Rattle.btsnoop_rules.specs.Drops.{drops_between};
ghost use Rattle.btsnoop_earlier.specs.Earlier.{earlier_of};
ghost use Rattle.capture_time.specs.Time.{reading, writing};
ghost use Rattle.radiotap_rules.specs.Table.{our_rules};
ghost use Rattle.radiotap_rules.specs.Reading.{reading as reading_in, field_of};
ghost use Rattle.radiotap_rules.specs.Answers.{word_number, summary, listed_into};
ghost use Rattle.radiotap_rules.specs.Writing.{writing as writing_in, written as written_in};
ghost use Rattle.boundary_write.specs.Rows.{written_row};
ghost use Rattle.boundary_btsnoop.specs.Rows.{header_row, file_row, survey_row, earlier_row};
ghost use Rattle.boundary_record.specs.Rows.{record_row};
ghost use Rattle.boundary_time.specs.Rows.{time_row, time_field_row};
ghost use Rattle.boundary_radiotap.specs.Rows.{radiotap_row, word_row, field_row};

pub mod le;
pub mod stream;
pub mod tallying;

use boundary_btsnoop::{Earlier, File, Header, Survey};
use boundary_radiotap::{Field, Radiotap, Word};
use boundary_record::Record;
use boundary_time::{Time, TimeField};
use boundary_write::Written;

// Reads the file header of a BTSnoop file.
#[unsafe(no_mangle)]
pub extern "C" fn zalghimo_btsnoop_header(input: &[u8]) -> Header
    ensures { result ≡ header_row (header_at input.now) }
{
    zalghimo::zalghimo_btsnoop_header(input)
}

// Checks a whole BTSnoop file.
#[unsafe(no_mangle)]
pub extern "C" fn zalghimo_btsnoop_check(input: &[u8]) -> File
    ensures { result ≡ file_row (file_at input.now) }
{
    zalghimo::zalghimo_btsnoop_check(input)
}

// Reads the record at a place.
#[unsafe(no_mangle)]
pub extern "C" fn zalghimo_btsnoop_record(input: &[u8], place: usize) -> Record
    ensures { result ≡ record_row (record_at input.now place) }
{
    zalghimo::zalghimo_btsnoop_record(input, place)
}

// Surveys the records from a place on, passing at most a number of them.
#[unsafe(no_mangle)]
pub extern "C" fn zalghimo_btsnoop_survey(input: &[u8], place: usize, number: usize) -> Survey
    ensures { result ≡ survey_row (survey_at input.now place number) }
{
    zalghimo::zalghimo_btsnoop_survey(input, place, number)
}

// Finds the earlier of two captures' records, each at a place.
#[unsafe(no_mangle)]
pub extern "C" fn zalghimo_btsnoop_earlier(
    first: &[u8],
    first_at: usize,
    second: &[u8],
    second_at: usize,
) -> Earlier
    ensures { result ≡ earlier_row (earlier_of first.now first_at second.now second_at) }
{
    zalghimo::zalghimo_btsnoop_earlier(first, first_at, second, second_at)
}

// Reads a record's time field as Unix seconds and microseconds.
#[unsafe(no_mangle)]
pub extern "C" fn zalghimo_btsnoop_read_time(field: i64) -> Time
    ensures { result ≡ time_row (reading field) }
{
    zalghimo::zalghimo_btsnoop_read_time(field)
}

// Writes Unix seconds and microseconds as a record's time field.
#[unsafe(no_mangle)]
pub extern "C" fn zalghimo_btsnoop_write_time(seconds: i64, microseconds: u32) -> TimeField
    ensures { result ≡ time_field_row (writing seconds microseconds) }
{
    zalghimo::zalghimo_btsnoop_write_time(seconds, microseconds)
}

// The drops between two records.
#[unsafe(no_mangle)]
pub extern "C" fn zalghimo_btsnoop_drops(earlier: u32, later: u32) -> u32
    ensures { result ≡ drops_between earlier later }
{
    zalghimo::zalghimo_btsnoop_drops(earlier, later)
}

// Writes a BTSnoop file header into an output at a place.
#[unsafe(no_mangle)]
pub extern "C" fn zalghimo_btsnoop_write_header(
    output: &mut [u8],
    place: usize,
    datalink: u32,
) -> Written
    ensures value { result ≡ written_row (header_writing (length output.old) place datalink) }
    ensures output_after { output.new ≡ header_written output.old place datalink }
{
    zalghimo::zalghimo_btsnoop_write_header(output, place, datalink)
}

// Writes a BTSnoop record into an output at a place.
#[unsafe(no_mangle)]
pub extern "C" fn zalghimo_btsnoop_write_record(
    output: &mut [u8],
    place: usize,
    original: u32,
    flags: u32,
    drops: u32,
    time: i64,
    packet: &[u8],
) -> Written
    ensures value { result ≡ written_row (record_writing (length output.old) place original packet.now) }
    ensures output_after { output.new ≡ record_written output.old place original flags drops time packet.now }
{
    zalghimo::zalghimo_btsnoop_write_record(output, place, original, flags, drops, time, packet)
}

// Reads a radiotap header in an edition.
#[unsafe(no_mangle)]
pub extern "C" fn zalghimo_radiotap_read(input: &[u8], edition: u32) -> Radiotap
    ensures { result ≡ radiotap_row (summary input.now (reading_in our_rules edition input.now)) }
{
    zalghimo::zalghimo_radiotap_read(input, edition)
}

// Reads a presence word of a radiotap header by its number.
#[unsafe(no_mangle)]
pub extern "C" fn zalghimo_radiotap_word(input: &[u8], number: usize) -> Word
    ensures { result ≡ word_row (word_number input.now number) }
{
    zalghimo::zalghimo_radiotap_word(input, number)
}

// Reads a field of a radiotap header in an edition by its number.
#[unsafe(no_mangle)]
pub extern "C" fn zalghimo_radiotap_field(input: &[u8], edition: u32, number: usize) -> Field
    ensures { result ≡ field_row (field_of (reading_in our_rules edition input.now) number) }
{
    zalghimo::zalghimo_radiotap_field(input, edition, number)
}

// Reads a radiotap header in an edition and puts its fields into a list of numbers, four a field.
#[unsafe(no_mangle)]
pub extern "C" fn zalghimo_radiotap_fields(
    input: &[u8],
    edition: u32,
    fields: &mut [u64],
) -> Radiotap
    ensures value { result ≡ radiotap_row (summary input.now (reading_in our_rules edition input.now)) }
    ensures fields_after { fields.new ≡ listed_into fields.old (reading_in our_rules edition input.now) }
{
    zalghimo::zalghimo_radiotap_fields(input, edition, fields)
}

// Writes a radiotap header with one presence word into an output at a place.
#[unsafe(no_mangle)]
pub extern "C" fn zalghimo_radiotap_write(
    output: &mut [u8],
    place: usize,
    edition: u32,
    presence: u32,
    values: &[u8],
) -> Written
    ensures value { result ≡ written_row (writing_in our_rules (length output.old) place edition presence values.now) }
    ensures output_after { output.new ≡ written_in our_rules output.old place edition presence values.now }
{
    zalghimo::zalghimo_radiotap_write(output, place, edition, presence, values)
}

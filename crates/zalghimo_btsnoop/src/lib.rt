// The functions that read a BTSnoop file, as the C boundary has them.
#![tactic(auto)]

ghost use Rattle.std.specs.Prelude.{◌≡◌};
ghost use Rattle.btsnoop_rules.specs.Header.{header_at};
ghost use Rattle.btsnoop_rules.specs.Record.{record_at};
ghost use Rattle.btsnoop_rules.specs.File.{survey_at, file_at};
ghost use Rattle.btsnoop_earlier.specs.Earlier.{earlier_of};
ghost use Rattle.boundary_btsnoop.specs.Rows.{header_row, file_row, survey_row, earlier_row};
ghost use Rattle.boundary_record.specs.Rows.{record_row};

use boundary_btsnoop::{Earlier, File, Header, Survey};
use boundary_record::Record;

// Reads the file header of a BTSnoop file.
pub fn header(input: &[u8]) -> Header
    ensures { result ≡ header_row (header_at input.now) }
{
    boundary_btsnoop::header_row(btsnoop_header::read(input))
}

// Checks a whole BTSnoop file.
pub fn check(input: &[u8]) -> File
    ensures { result ≡ file_row (file_at input.now) }
{
    boundary_btsnoop::file_row(btsnoop_survey::check(input))
}

// Reads the record at a place.
pub fn record(input: &[u8], place: usize) -> Record
    ensures { result ≡ record_row (record_at input.now place) }
{
    boundary_record::read(input, place)
}

// Surveys the records from a place on, passing at most a number of them.
pub fn survey(input: &[u8], place: usize, number: usize) -> Survey
    ensures { result ≡ survey_row (survey_at input.now place number) }
{
    boundary_btsnoop::survey_row(btsnoop_survey::survey(input, place, number))
}

// Finds the earlier of two captures' records, each at a place.
pub fn earlier(first: &[u8], first_at: usize, second: &[u8], second_at: usize) -> Earlier
    ensures { result ≡ earlier_row (earlier_of first.now first_at second.now second_at) }
{
    boundary_btsnoop::earlier_row(btsnoop_earlier::answer(first, first_at, second, second_at))
}

// The listing of a BTSnoop file as lines of text, written into an output at a place.
#![tactic(auto)]

ghost use Rattle.std.specs.Prelude.{◌≡◌, ◌+◌, ◌≤◌, length};
ghost use Rattle.refusals.specs.Says.{says};
ghost use Rattle.btsnoop_rules.specs.Header.{header_length};
ghost use Rattle.btsnoop_rules.specs.File.{file_walk};
ghost use Rattle.listing_rules.specs.Lines.{most_octets, most_listed, walk_lines, listing, listing_writing, listing_written};
ghost use Rattle.text_lines.specs.Wrote.{Appends};
ghost use Rattle.listing.specs.Listed.{last_of, Lacks};

use btsnoop_rules::HEADER_LENGTH;
use refusals::{Reason, Refusal};
use text_lines::Lines;

// The most octets that are listed.
pub const MOST_OCTETS: usize = 65536;
// No listing has more octets: a record takes 24 octets of the input at least, and its line 192 at most.
pub const MOST_LISTED: usize = 524288;

// Writes the listing of an input into an output at a place. Without room for all of it nothing is written.
pub fn write(output: &mut [u8], place: usize, input: &[u8]) -> Result<usize, Refusal>
    ensures result_value { says result ≡ listing_writing (length output.old) place input.now }
    ensures output_after { output.new ≡ listing_written output.old place input.now }
{
    let size = size(input);
    if octets::has_room(output.len(), place, size) {
        let mut lines = Lines { output, at: place };
        list(&mut lines, input);
        Ok(lines.at)
    } else {
        refusals::write_refused(Reason::NoRoom)
    }
}

// How many octets the listing of an input has.
pub fn size(input: &[u8]) -> usize
    ensures value { result ≡ length (listing input.now) }
    ensures upper_bound { result ≤ MOST_LISTED }
{
    let mut none = [0u8; 1];
    let mut lines = Lines {
        output: &mut none,
        at: 0,
    };
    list(&mut lines, input);
    lines.at
}

// Writes the lines of an input.
fn list(lines: &mut Lines, input: &[u8])
    ensures same_output { lines.new.output.ghost_name ≡ lines.old.output.ghost_name }
    ensures wrote { Appends lines.old (listing input.now) lines.new }
    ensures upper_bound { lines.new.at ≤ lines.old.at + most_listed }
{
    match lines_before_last(lines, input) {
        Ok(count) => listing_lines::end_line(lines, count),
        Err(refusal) => listing_lines::stop_line(lines, refusal),
    }
}

// Writes the lines of an input but the last, and tells what that says: how many records there are, or a refusal.
fn lines_before_last(lines: &mut Lines, input: &[u8]) -> Result<usize, Refusal>
    ensures same_output { lines.new.output.ghost_name ≡ lines.old.output.ghost_name }
    ensures lacks_last { Lacks lines.old (listing input.now) lines.new (last_of result) }
    ensures upper_bound { lines.new.at + 64 ≤ lines.old.at + most_listed }
{
    if MOST_OCTETS < input.len() {
        return Err(Reason::ListingInput.at(MOST_OCTETS));
    }
    let datalink = btsnoop_header::read(input)?;
    listing_lines::file_line(lines, datalink);
    record_lines(lines, input)
}

// Writes the lines of an input's records, and tells how many there are, or the refusal of the next.
fn record_lines(lines: &mut Lines, input: &[u8]) -> Result<usize, Refusal>
    requires { (header_length ≤ length input.now) × (length input.now ≤ most_octets) }
    ensures same_output { lines.new.output.ghost_name ≡ lines.old.output.ghost_name }
    ensures lacks_last { Lacks lines.old (walk_lines 0 (file_walk input.now)) lines.new (last_of result) }
    ensures upper_bound { lines.new.at + 128 ≤ lines.old.at + most_listed }
{
    let mut place = HEADER_LENGTH;
    let mut count: usize = 0;
    while let Some(record) = btsnoop_record::read(input, place)? {
        record_line::write(lines, place, record.numbers);
        place = record.next;
        count += 1;
    }
    Ok(count)
}

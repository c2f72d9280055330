// The line of a record in a listing, written into an output.
#![tactic(auto)]

ghost use Rattle.std.specs.Prelude.{◌≡◌, ◌+◌, ◌≤◌};
ghost use Rattle.refusals.specs.Says.{says};
ghost use Rattle.listing_rules.specs.Lines.{fields_of, time_fields, record_line};
ghost use Rattle.text_lines.specs.Wrote.{Appends};

use btsnoop_rules::Numbers;
use capture_time::Time;
use refusals::Refusal;
use text_lines::Lines;

// Writes the line of a record at a place.
pub fn write(lines: &mut Lines, place: usize, numbers: Numbers)
    ensures same_output { lines.new.output.ghost_name ≡ lines.old.output.ghost_name }
    ensures wrote { Appends lines.old (record_line place numbers) lines.new }
    ensures upper_bound { lines.new.at ≤ lines.old.at + 192 }
{
    lines.word(b"rec");
    lines.field(place as u64);
    lines.field(numbers.original as u64);
    lines.field(numbers.included as u64);
    lines.field(numbers.flags as u64);
    lines.field(numbers.drops as u64);
    time_fields(lines, capture_time::read_time(numbers.time));
}

// Writes the fields of a time and the line's end.
fn time_fields(lines: &mut Lines, time: Result<Time, Refusal>)
    ensures same_output { lines.new.output.ghost_name ≡ lines.old.output.ghost_name }
    ensures wrote { Appends lines.old (fields_of (time_fields (says time))) lines.new }
    ensures upper_bound { lines.new.at ≤ lines.old.at + 44 }
{
    match time {
        Ok(time) => {
            lines.field(time.seconds);
            lines.last_field(time.microseconds as u64);
        }
        Err(_) => {
            lines.word(b"\t-\t-\n");
        }
    }
}

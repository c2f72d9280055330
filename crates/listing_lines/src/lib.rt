// The lines of a listing but those of records, written into an output.
#![tactic(auto)]

ghost use Rattle.std.specs.Prelude.{◌≡◌, ◌+◌, ◌≤◌};
ghost use Rattle.refusals.specs.Says.{number_of};
ghost use Rattle.listing_rules.specs.Lines.{file_line, stop_line, end_line};
ghost use Rattle.text_lines.specs.Wrote.{Appends};

use refusals::Refusal;
use text_lines::Lines;

// Writes the line of a file.
pub fn file_line(lines: &mut Lines, datalink: u32)
    ensures same_output { lines.new.output.ghost_name ≡ lines.old.output.ghost_name }
    ensures wrote { Appends lines.old (file_line datalink) lines.new }
    ensures upper_bound { lines.new.at ≤ lines.old.at + 64 }
{
    lines.word(b"file\t1");
    lines.last_field(datalink as u64);
}

// Writes the line of a refusal.
pub fn stop_line(lines: &mut Lines, refusal: Refusal)
    ensures same_output { lines.new.output.ghost_name ≡ lines.old.output.ghost_name }
    ensures wrote { Appends lines.old (stop_line (number_of refusal.reason) refusal.place) lines.new }
    ensures upper_bound { lines.new.at ≤ lines.old.at + 64 }
{
    lines.word(b"stop");
    lines.field(refusal.reason.number() as u64);
    lines.last_field(refusal.place as u64);
}

// Writes the line of the end, behind so many records.
pub fn end_line(lines: &mut Lines, count: usize)
    ensures same_output { lines.new.output.ghost_name ≡ lines.old.output.ghost_name }
    ensures wrote { Appends lines.old (end_line count) lines.new }
    ensures upper_bound { lines.new.at ≤ lines.old.at + 64 }
{
    lines.word(b"end");
    lines.last_field(count as u64);
}

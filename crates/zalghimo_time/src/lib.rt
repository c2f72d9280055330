// The functions of the time field and of the drops, as the C boundary has them.
#![tactic(auto)]

ghost use Rattle.std.specs.Prelude.{◌≡◌};
ghost use Rattle.btsnoop_rules.specs.Drops.{drops_between};
ghost use Rattle.capture_time.specs.Time.{reading, writing};
ghost use Rattle.boundary_time.specs.Rows.{time_row, time_field_row};

use boundary_time::TimeField;
use capture_time::Time;

// Reads a record's time field as Unix seconds and microseconds.
pub fn read_time(field: i64) -> boundary_time::Time
    ensures { result ≡ time_row (reading field) }
{
    boundary_time::time_row(capture_time::read_time(field))
}

// Writes Unix seconds and microseconds as a record's time field. C hands the two one by one.
pub fn write_time(seconds: i64, microseconds: u32) -> TimeField
    ensures { result ≡ time_field_row (writing seconds microseconds) }
{
    boundary_time::field_row(capture_time::write_time(Time {
        seconds,
        microseconds,
    }))
}

// The drops between two records.
pub fn drops(earlier: u32, later: u32) -> u32
    ensures { result ≡ drops_between earlier later }
{
    btsnoop_drops::between(earlier, later)
}

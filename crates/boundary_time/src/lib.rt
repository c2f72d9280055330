// The structs of the C boundary for the time functions, and each answer as one. Kind 0 is a refusal, 1 values.
#![tactic(auto)]

ghost use Rattle.std.specs.Prelude.{◌≡◌};
ghost use Rattle.refusals.specs.Says.{says};
ghost use Rattle.boundary_time.specs.Rows.{time_row, time_field_row};

use refusals::Refusal;

// zalghimo_time
#[repr(C)]
#[derive(Clone, Copy)]
pub struct Time {
    pub kind: u64,
    pub number: u64,
    pub place: u64,
    pub seconds: i64,
    pub microseconds: u64,
}

// zalghimo_time_field
#[repr(C)]
#[derive(Clone, Copy)]
pub struct TimeField {
    pub kind: u64,
    pub number: u64,
    pub place: u64,
    pub field: i64,
}

pub fn time_row(answer: Result<capture_time::Time, Refusal>) -> Time
    ensures { result ≡ time_row (says answer) }
{
    match answer {
        Err(refusal) => Time {
            kind: 0,
            number: refusal.reason.number() as u64,
            place: refusal.place as u64,
            seconds: 0,
            microseconds: 0,
        },
        Ok(time) => Time {
            kind: 1,
            number: 0,
            place: 0,
            seconds: time.seconds,
            microseconds: time.microseconds as u64,
        },
    }
}

pub fn field_row(answer: Result<i64, Refusal>) -> TimeField
    ensures { result ≡ time_field_row (says answer) }
{
    match answer {
        Err(refusal) => TimeField {
            kind: 0,
            number: refusal.reason.number() as u64,
            place: refusal.place as u64,
            field: 0,
        },
        Ok(field) => TimeField {
            kind: 1,
            number: 0,
            place: 0,
            field,
        },
    }
}

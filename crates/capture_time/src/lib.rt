// The time of a record: from the signed 64-bit field to seconds and microseconds, and back.
#![tactic(auto)]

ghost use Rattle.std.specs.Prelude.{◌<◌, ◌≡◌, false};
ghost use Rattle.refusals.specs.Says.{says};
ghost use Rattle.capture_time.specs.Time.{per_second, time_of, below_range, above_range, reading, field_of, unwritable, writing};

use refusals::{Reason, Refusal};

// The refusal of a time that cannot be expressed, which speaks of no place.
const INEXPRESSIBLE: Refusal = Refusal {
    reason: Reason::Time,
    place: 0,
};
// C of document 01: the field at which Unix time starts.
const UNIX_EPOCH: i64 = 0x00DC_DDB3_0F2F_8000;
// C in seconds.
const UNIX_EPOCH_SECONDS: i64 = 62_168_256_000;
// The microseconds of a second.
const PER_SECOND: i64 = 1_000_000;
// The most microseconds beside whole seconds.
const LAST_MICROSECOND: u32 = 999_999;
// The first field that is read: C − 2^63.
const EARLIEST_FIELD: i64 = -9_161_203_780_854_775_808;
// The seconds of the first time that is written, at field −2^63.
const EARLIEST_SECONDS: i64 = -9_285_540_292_855;
// Its microseconds.
const EARLIEST_MICROSECONDS: u32 = 224_192;
// The seconds of the last time that is written, at field 2^63 − 1.
const LATEST_SECONDS: i64 = 9_161_203_780_854;
// Its microseconds.
const LATEST_MICROSECONDS: u32 = 775_807;

// A time: its seconds since Unix time's start, and its microseconds.
#[derive(Clone, Copy, Debug, PartialEq, Eq)]
pub struct Time {
    pub seconds: i64,
    pub microseconds: u32,
}

impl Time {
    // The time of so many Unix microseconds: seconds rounded down, and the microseconds above them.
    fn of(unix_microseconds: i64) -> Time
        ensures { result ≡ time_of unix_microseconds }
    {
        let quotient = unix_microseconds / PER_SECOND;
        let remainder = unix_microseconds % PER_SECOND;
        if remainder < 0 {
            Time {
                seconds: quotient - 1,
                microseconds: (remainder + PER_SECOND) as u32,
            }
        } else {
            Time {
                seconds: quotient,
                microseconds: remainder as u32,
            }
        }
    }

    // Whether its field is below −2^63.
    fn is_below_range(self) -> bool
        requires { self.microseconds < per_second }
        ensures { result ≡ below_range (field_of self.seconds self.microseconds) }
    {
        self.seconds < EARLIEST_SECONDS
            || self.seconds == EARLIEST_SECONDS && self.microseconds < EARLIEST_MICROSECONDS
    }

    // Whether its field is above 2^63 − 1.
    fn is_above_range(self) -> bool
        requires { self.microseconds < per_second }
        ensures { result ≡ above_range (field_of self.seconds self.microseconds) }
    {
        self.seconds > LATEST_SECONDS
            || self.seconds == LATEST_SECONDS && self.microseconds > LATEST_MICROSECONDS
    }

    // Whether it cannot be written.
    fn is_unwritable(self) -> bool
        ensures { result ≡ unwritable self.seconds self.microseconds }
    {
        self.microseconds > LAST_MICROSECOND || (self.is_below_range() || self.is_above_range())
    }

    // Its field, where it can be written.
    fn field(self) -> i64
        requires { unwritable self.seconds self.microseconds ≡ false }
        ensures { result ≡ field_of self.seconds self.microseconds }
    {
        let whole = self.seconds + UNIX_EPOCH_SECONDS;
        if whole < 0 {
            (whole + 1) * PER_SECOND + (self.microseconds as i64 - PER_SECOND)
        } else {
            whole * PER_SECOND + self.microseconds as i64
        }
    }
}

// The time of a field. Refuses one whose Unix microseconds are below −2^63.
// Reading and writing have names and are no TryFrom: a number is a time's field only where a record says so.
pub fn read_time(field: i64) -> Result<Time, Refusal>
    ensures { says result ≡ reading field }
{
    if field < EARLIEST_FIELD {
        Err(INEXPRESSIBLE)
    } else {
        Ok(Time::of(field - UNIX_EPOCH))
    }
}

// The field of a time. Refuses more than 999,999 microseconds, and a field that leaves the signed 64-bit range.
pub fn write_time(time: Time) -> Result<i64, Refusal>
    ensures { says result ≡ writing time.seconds time.microseconds }
{
    if time.is_unwritable() {
        Err(INEXPRESSIBLE)
    } else {
        Ok(time.field())
    }
}

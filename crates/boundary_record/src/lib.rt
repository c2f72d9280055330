// Reading one BTSnoop record at a place straight into its struct of the C boundary: the answer is written once. Kind 0 is
// a refusal, 1 values, 2 the end. `btsnoop_record` makes the same tests: its answer made into this struct took 5.5 times
// plain Rust, where the aim is 2.0 (docs/DECISIONS.md, "Speed").
#![tactic(auto)]

ghost use Rattle.std.specs.Prelude.{◌≡◌, ◌+◌, ◌≤◌, length};
ghost use Rattle.refusals.specs.Refusals.{refused as Refused, given};
ghost use Rattle.refusals.specs.Says.{number_of};
ghost use Rattle.btsnoop_rules.specs.Record.{record_length, numbers_at, end as End, whole as Whole, record_judged, record_at};
ghost use Rattle.boundary_record.specs.Rows.{record_row};

use btsnoop_rules::{HEADER_LENGTH, RECORD_LENGTH};
use numbers::Number;
use refusals::Reason;

// zalghimo_record
#[repr(C)]
#[derive(Clone, Copy)]
pub struct Record {
    pub kind: u64,
    pub number: u64,
    pub place: u64,
    pub original: u64,
    pub included: u64,
    pub flags: u64,
    pub drops: u64,
    pub time: i64,
    pub packet: u64,
    pub next: u64,
}

// Reads the record at a place. The file header is not judged.
pub fn read(s: &[u8], place: usize) -> Record
    ensures { result ≡ record_row (record_at s.now place) }
{
    if place < HEADER_LENGTH || s.len() < place {
        return refused(Reason::RecordPlace, place);
    }
    if place == s.len() {
        return end();
    }
    let left = s.len() - place;
    if left < RECORD_LENGTH {
        return refused(Reason::ShortRecord, place);
    }
    judged(s, place, left)
}

// Judges a record by its two lengths, at a place from which so many octets are left, and reads the rest of it. It stands
// apart since the compiler takes a call behind six tests for a rare one, and leaves it a call.
fn judged(s: &[u8], place: usize, left: usize) -> Record
    requires left_value { place + left ≡ length s.now }
    requires record_length_le_left { record_length ≤ left }
    ensures { result ≡ record_row (record_judged left place (numbers_at s.now place)) }
{
    let original = u32::be_at(s, place);
    let included = u32::be_at(s, place + 4);
    if original < included {
        return refused(Reason::IncludedAboveOriginal, place + 4);
    }
    if left - RECORD_LENGTH < included as usize {
        return refused(Reason::ShortPacket, place);
    }
    whole(s, place, original, included)
}

// The whole record at a place, with its two lengths.
fn whole(s: &[u8], place: usize, original: u32, included: u32) -> Record
    requires included_in_bounds { place + record_length + included ≤ length s.now }
    requires original_value { original ≡ (numbers_at s.now place).original }
    requires included_value { included ≡ (numbers_at s.now place).included }
    ensures { result ≡ record_row (given (Whole (numbers_at s.now place) (place + record_length) (place + record_length + (numbers_at s.now place).included))) }
{
    let packet = place + RECORD_LENGTH;
    Record {
        kind: 1,
        number: 0,
        place: 0,
        original: original as u64,
        included: included as u64,
        flags: u32::be_at(s, place + 8) as u64,
        drops: u32::be_at(s, place + 12) as u64,
        time: twos_complement::signed64(u32::be_at(s, place + 16), u32::be_at(s, place + 20)),
        packet: packet as u64,
        next: (packet + included as usize) as u64,
    }
}

// The input's end.
fn end() -> Record
    ensures { result ≡ record_row (given End) }
{
    Record {
        kind: 2,
        number: 0,
        place: 0,
        original: 0,
        included: 0,
        flags: 0,
        drops: 0,
        time: 0,
        packet: 0,
        next: 0,
    }
}

// A refusal.
fn refused(reason: Reason, place: usize) -> Record
    ensures { result ≡ record_row (Refused (number_of reason) place) }
{
    Record {
        kind: 0,
        number: reason.number() as u64,
        place: place as u64,
        original: 0,
        included: 0,
        flags: 0,
        drops: 0,
        time: 0,
        packet: 0,
        next: 0,
    }
}

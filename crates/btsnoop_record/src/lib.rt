// Reading one BTSnoop record at a place, its packet, and what its flags say.
#![tactic(auto)]

ghost use Rattle.std.specs.Prelude.{◌≡◌, ◌+◌, ◌^◌, ◌<◌, ◌≤◌, length};
ghost use Rattle.refusals.specs.Says.{says_by};
ghost use Rattle.btsnoop_rules.specs.Record.{record_length, numbers_at, received as is_received, command as is_command, record_judged, record_at, packet_at};
ghost use Rattle.btsnoop_record.specs.Says.{whole_of, found_of};

use btsnoop_rules::{HEADER_LENGTH, Numbers, RECORD_LENGTH};
use numbers::Number;
use refusals::{Reason, Refusal};

// A whole record: its numbers, and the places of its packet and of the next record.
#[derive(Clone, Copy)]
pub struct Record {
    pub numbers: Numbers,
    pub packet: usize,
    pub next: usize,
}

// Reads the record at a place, or nothing at the input's end. The file header is not judged.
pub fn read(s: &[u8], place: usize) -> Result<Option<Record>, Refusal>
    ensures { says_by found_of result ≡ record_at s.now place }
{
    if place < HEADER_LENGTH || s.len() < place {
        return Err(Reason::RecordPlace.at(place));
    }
    if place == s.len() {
        return Ok(None);
    }
    let left = s.len() - place;
    if left < RECORD_LENGTH {
        return Err(Reason::ShortRecord.at(place));
    }
    Ok(Some(judge(left, place, numbers(s, place))?))
}

// The numbers in the 24 octets at a place. `btsnoop_numbers` reads the same from an array: one public function for both
// would have to bound the place, and none here has a `requires`.
fn numbers(s: &[u8], place: usize) -> Numbers
    requires { place ≤ length s.now }
    ensures { result ≡ numbers_at s.now place }
{
    Numbers {
        original: u32::be_at(s, place),
        included: u32::be_at(s, place + 4),
        flags: u32::be_at(s, place + 8),
        drops: u32::be_at(s, place + 12),
        time: twos_complement::signed64(u32::be_at(s, place + 16), u32::be_at(s, place + 20)),
    }
}

// Judges a record's numbers at a place from which so many octets are left.
fn judge(left: usize, place: usize, numbers: Numbers) -> Result<Record, Refusal>
    requires left_bound { place + left < 2 ^ 64 }
    requires record_length_le_left { record_length ≤ left }
    ensures { says_by whole_of result ≡ record_judged left place numbers }
{
    if numbers.original < numbers.included {
        return Err(Reason::IncludedAboveOriginal.at(place + 4));
    }
    let included = numbers.included as usize;
    if left - RECORD_LENGTH < included {
        return Err(Reason::ShortPacket.at(place));
    }
    let packet = place + RECORD_LENGTH;
    Ok(Record {
        numbers,
        packet,
        next: packet + included,
    })
}

// The packet of the record at a place, as a part of the input; empty where there is no whole record.
#[tactic(auto, unfolding(btsnoop_rules::specs::Record::packet_at))]
pub fn packet(s: &[u8], place: usize) -> &[u8]
    ensures { result.now ≡ packet_at s.now place }
{
    match read(s, place) {
        Ok(Some(record)) => octets::part(s, record.packet, record.numbers.included as usize),
        Ok(None) => &s[..0],
        Err(_) => &s[..0],
    }
}

// This and the next are one expression each; one function with a bit beside the flags would be no plainer.

// Whether a record's packet was received (bit 0 of its flags).
#[tactic(auto, unfolding(btsnoop_rules::specs::Record::received))]
pub fn received(flags: u32) -> bool
    ensures { result ≡ is_received flags }
{
    (flags >> 0) % 2 == 1
}

// Whether a record's packet is a command or an event (bit 1 of its flags).
#[tactic(auto, unfolding(btsnoop_rules::specs::Record::command))]
pub fn command(flags: u32) -> bool
    ensures { result ≡ is_command flags }
{
    (flags >> 1) % 2 == 1
}

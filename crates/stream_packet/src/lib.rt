// Captures as they arrive: a record's packet, handed out as parts of the chunks.
#![tactic(auto)]

ghost use Rattle.std.specs.Prelude.{◌≡◌, List, [], ℕ, ◌+◌, ◌-◌, ◌^◌, ◌≤◌, ◌<◌, length, drop};
ghost use Rattle.btsnoop_rules.specs.Record.{record_length, numbers_at};
ghost use Rattle.stream_rules.specs.Stream.{most_octets, finished as finished_record, in_record, in_packet, outcome, handed, after, take_packet, take_at, within as within_longest};
ghost use Rattle.stream_packet.specs.Finished.{FinishedAs};
ghost use Rattle.stream_state.specs.Rows.{if_any, part_row, TakenAs};

use btsnoop_rules::{Numbers, RECORD_LENGTH};
use refusals::Reason;
use stream_state::{Phase, Stream, Taken};

// A stream in a packet: the octets of the record's header, how many octets of the stream were taken, and how many of the
// packet were handed out.
#[derive(Clone, Copy)]
pub struct Packet {
    pub header: [u8; 24],
    pub octets: usize,
    pub done: u32,
}

impl Packet {
    // Hands out a chunk's octets up to the end of the packet, behind what was taken of it.
    pub fn take(self, chunk: &[u8]) -> Taken
        ensures { TakenAs (take_at (in_packet self.octets (numbers_at self.header 0) self.done) chunk.now) result }
    {
        self.take_from(chunk, 0)
    }

    // Hands them out from a place in the chunk on.
    pub fn take_from(self, chunk: &[u8], from: usize) -> Taken
        ensures { TakenAs (within_longest self.octets (drop from chunk.now) (after from (take_packet self.octets (numbers_at self.header 0) self.done (drop from chunk.now)))) result }
    {
        let here = chunk.len().saturating_sub(from);
        if stream_state::within(self.octets, here) {
            self.hand_out(from, here)
        } else {
            stream_state::refused(self.octets, Reason::LongStream.at(0))
        }
    }

    // The same within the longest stream, with so many octets of the chunk from the place on.
    fn hand_out(self, from: usize, here: usize) -> Taken
        requires { (self.octets + here ≤ most_octets) × (from + here < 2 ^ 64) }
        ensures { (c : List ℕ) → length (drop from c) ≡ here → TakenAs (after from (take_packet self.octets (numbers_at self.header 0) self.done (drop from c))) result }
    {
        let included = btsnoop_numbers::included(&self.header) as usize;
        let left = included.saturating_sub(self.done as usize);
        if here < left {
            self.unfinished(from, here)
        } else {
            self.last(from, left)
        }
    }

    // So many octets handed out, and more of the packet to come.
    fn unfinished(self, from: usize, here: usize) -> Taken
        requires { (self.octets + here ≤ most_octets) × (self.done + here < 2 ^ 32) × (from + here < 2 ^ 64) }
        ensures { (xs : List ℕ) → length xs ≡ here → TakenAs (outcome (from + here) (handed self.done xs) (in_packet (self.octets + here) (numbers_at self.header 0) (self.done + here))) result }
    {
        let held = self.header;
        let state = Stream {
            count: RECORD_LENGTH as u64,
            done: (self.done as usize + here) as u64,
            held,
            ..stream_state::kept(Phase::Packet, self.octets + here)
        };
        self.part(from, here).handed_out(from + here, state)
    }

    // The last octets of the packet handed out, and with them the record.
    fn last(self, from: usize, left: usize) -> Taken
        requires { (self.octets + left ≤ most_octets) × (from + left < 2 ^ 64) }
        ensures { (xs : List ℕ) → length xs ≡ left → TakenAs (outcome (from + left) (finished_record (self.octets - (record_length + self.done)) (numbers_at self.header 0) self.done xs) (in_record (self.octets + left) [])) result }
    {
        finished(
            self.octets
                .saturating_sub(RECORD_LENGTH + self.done as usize),
            btsnoop_numbers::numbers(&self.header),
            self.part(from, left),
            self.octets + left,
            from + left,
        )
    }

    // The packet's next octets, so many of a chunk from a place on.
    fn part(self, from: usize, size: usize) -> Part
        ensures { result ≡ record { from = from; size = size; position = self.done } }
    {
        Part {
            from,
            size,
            position: self.done,
        }
    }
}

// Packet octets as a part of a chunk: their place and number there, and their position in the packet.
#[derive(Clone, Copy)]
pub struct Part {
    pub from: usize,
    pub size: usize,
    pub position: u32,
}

impl Part {
    // An answer that hands them out, the last that were taken of the chunk.
    fn handed_out(self, taken: usize, state: Stream) -> Taken
        ensures { result ≡ part_row taken (if_any self.size self.from) self.size (if_any self.size self.position) state }
    {
        Taken {
            part: if_any(self.size, self.from),
            size: self.size as u64,
            position: if_any(self.size, self.position as usize),
            ..stream_state::nothing(taken, state)
        }
    }
}

// A finished record by its start and its numbers, with octets of its packet, the last that were taken, and the stream that
// awaits the next record.
pub fn finished(start: usize, numbers: Numbers, part: Part, octets: usize, taken: usize) -> Taken
    ensures { FinishedAs taken part.from part.size part.position start numbers octets result }
{
    Taken {
        kind: 1,
        start: start as u64,
        original: numbers.original as u64,
        included: numbers.included as u64,
        flags: numbers.flags as u64,
        drops: numbers.drops as u64,
        time: numbers.time,
        ..part.handed_out(taken, stream_state::kept(Phase::Record, octets))
    }
}

// A number of some packet octets, 0 where there are none.
fn if_any(size: usize, number: usize) -> u64
    ensures { result ≡ if_any size number }
{
    if size == 0 { 0 } else { number as u64 }
}

// Captures as they arrive: what is kept between calls and what a call answers, as the C boundary has them, and the steps
// that the phases share.
#![tactic(auto)]

ghost use Rattle.std.specs.Prelude.{◌≡◌, [], ◌+◌, ◌++◌, ◌≤◌, length, take as front, leb};
ghost use Rattle.refusals.specs.Says.{number_of};
ghost use Rattle.octets.specs.Parts.{part as part_of};
ghost use Rattle.btsnoop_rules.specs.Record.{record_length};
ghost use Rattle.stream_rules.specs.Stream.{most_octets, nothing as no_event, datalink, in_record, outcome, refuses, ends, fresh as fresh_stream};
ghost use Rattle.stream_state.specs.State.{phase_number, phase_of, octets_held, bare_state, keeps, state_says};
ghost use Rattle.stream_state.specs.Rows.{plain_row, TakenAs};

use btsnoop_rules::RECORD_LENGTH;
use refusals::Refusal;

// The most octets that a stream may have.
pub const MOST_OCTETS: usize = 0x7fff_ffff_ffff_ffff;

// What the next octet belongs to, or the final answer.
#[derive(Clone, Copy, Debug, PartialEq, Eq)]
pub enum Phase {
    Header,
    Record,
    Packet,
    Refused,
    Ended,
}

// By its number in a lent state; any other number is the end.
impl From<u64> for Phase {
    ghost from_gives = { λ number phase. phase ≡ phase_of number };

    fn from(number: u64) -> Phase {
        match number {
            0 => Phase::Header,
            1 => Phase::Record,
            2 => Phase::Packet,
            3 => Phase::Refused,
            _ => Phase::Ended,
        }
    }
}

// What is kept between calls: the phase, a refusal's number and place, how many octets of the stream were taken, how
// many octets of the current header are held, how many of the current packet were handed out, and the octets held.
// zalghimo_stream
#[repr(C)]
#[derive(Clone, Copy)]
pub struct Stream {
    pub phase: u64,
    pub number: u64,
    pub place: u64,
    pub octets: u64,
    pub count: u64,
    pub done: u64,
    pub held: [u8; 24],
}

// A call's answer: what it hands out, how many octets of the chunk it took, and what is left to the next call. Packet
// octets are a part of the chunk, by its place and size; their position is in the packet.
// zalghimo_taken
#[repr(C)]
#[derive(Clone, Copy)]
pub struct Taken {
    pub kind: u64,
    pub number: u64,
    pub place: u64,
    pub taken: u64,
    pub part: u64,
    pub size: u64,
    pub position: u64,
    pub datalink: u64,
    pub start: u64,
    pub original: u64,
    pub included: u64,
    pub flags: u64,
    pub drops: u64,
    pub time: i64,
    pub state: Stream,
}

// The octets held of a header: the first so many of 24, or all of them.
#[derive(Clone, Copy)]
pub struct Held {
    pub octets: [u8; 24],
    pub count: usize,
}

impl Held {
    // How many are held.
    pub fn len(self) -> usize
        ensures size { result ≡ length (octets_held self) }
        ensures room { result ≤ record_length }
    {
        self.count.min(RECORD_LENGTH)
    }

    // The octets alone.
    pub fn as_slice(&self) -> &[u8]
        ensures { result.now ≡ octets_held self.now }
    {
        &self.octets[..self.len()]
    }

    // As many octets of a chunk behind them as there is room for.
    pub fn with(self, chunk: &[u8]) -> Held
        ensures { octets_held result ≡ front record_length (octets_held self ++ chunk.now) }
    {
        let have = self.len();
        let n = chunk.len().min(RECORD_LENGTH - have);
        let mut octets = self.octets;
        octets[have..have + n].copy_from_slice(&chunk[..n]);
        Held {
            octets,
            count: have + n,
        }
    }
}

// Before the first octet.
pub fn fresh() -> Stream
    ensures { state_says result ≡ fresh_stream }
{
    kept(Phase::Header, 0)
}

// A stream of which so many octets were taken, and none held.
pub fn kept(phase: Phase, octets: usize) -> Stream
    ensures { result ≡ bare_state phase octets }
{
    Stream {
        phase: phase as u64,
        number: 0,
        place: 0,
        octets: octets as u64,
        count: 0,
        done: 0,
        held: [0; 24],
    }
}

// The packet octets that a call handed out, as a part of its chunk; empty where there are none.
pub fn part(answer: Taken, chunk: &[u8]) -> &[u8]
    ensures { result.now ≡ part_of chunk.now answer.part answer.size }
{
    octets::part(chunk, answer.part as usize, answer.size as usize)
}

// An answer that hands nothing out. Its kind, as each kind of an answer, is C's number.
pub fn nothing(taken: usize, state: Stream) -> Taken
    ensures { result ≡ plain_row 3 0 0 taken 0 state }
{
    Taken {
        kind: 3,
        number: 0,
        place: 0,
        taken: taken as u64,
        part: 0,
        size: 0,
        position: 0,
        datalink: 0,
        start: 0,
        original: 0,
        included: 0,
        flags: 0,
        drops: 0,
        time: 0,
        state,
    }
}

// A stream of which header octets are held, in a phase by its number.
pub fn holding(phase: u64, held: Held, octets: usize, taken: usize) -> Taken
    ensures { TakenAs (outcome taken no_event (keeps phase 0 0 octets held.count 0 held.octets)) result }
{
    let all = held.octets;
    let state = Stream {
        phase,
        count: held.count as u64,
        held: all,
        ..kept(Phase::Header, octets)
    };
    nothing(taken, state)
}

// The datalink code, and the stream that awaits a record.
pub fn accepted(code: u32, octets: usize, taken: usize) -> Taken
    ensures { TakenAs (outcome taken (datalink code) (in_record octets [])) result }
{
    Taken {
        kind: 5,
        datalink: code as u64,
        ..nothing(taken, kept(Phase::Record, octets))
    }
}

// A refusal, and the stream that gives it again.
pub fn refused(octets: usize, refusal: Refusal) -> Taken
    ensures { TakenAs (refuses octets (number_of refusal.reason) refusal.place) result }
{
    refused_by(octets, refusal.reason.number(), refusal.place)
}

// The same by the refusal's number, which a lent state may hold any of.
pub fn refused_by(octets: usize, number: u32, place: usize) -> Taken
    ensures { TakenAs (refuses octets number place) result }
{
    let state = Stream {
        number: number as u64,
        place: place as u64,
        ..kept(Phase::Refused, octets)
    };
    Taken {
        kind: 0,
        number: number as u64,
        place: place as u64,
        ..nothing(0, state)
    }
}

// The end, and the stream that gives it again.
pub fn at_end(octets: usize) -> Taken
    ensures { TakenAs (ends octets) result }
{
    Taken {
        kind: 2,
        ..nothing(0, kept(Phase::Ended, octets))
    }
}

// Whether a chunk of a length ends inside the longest stream.
pub fn within(octets: usize, length: usize) -> bool
    ensures { result ≡ leb (octets + length) most_octets }
{
    octets <= MOST_OCTETS && length <= MOST_OCTETS - octets
}

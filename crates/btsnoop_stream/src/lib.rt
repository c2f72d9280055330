// Reading BTSnoop as it arrives: chunk after chunk, with at most the 24 octets of one header kept between them.
#![tactic(auto)]

ghost use Rattle.std.specs.Prelude.{◌≡◌, cond, ◌-◌, ◌+◌, ◌%◌, ◌^◌, eqb};
ghost use Rattle.refusals.specs.Refusals.{short_record, short_packet};
ghost use Rattle.btsnoop_rules.specs.Record.{record_length};
ghost use Rattle.stream_rules.specs.Stream.{refuses, ends, take_at, end_at};
ghost use Rattle.stream_state.specs.State.{state_says};
ghost use Rattle.stream_state.specs.Rows.{TakenAs};

use btsnoop_rules::RECORD_LENGTH;
use refusals::Reason;
use stream_packet::Packet;
use stream_state::{Held, Phase, Stream, Taken};

// Takes octets of a chunk.
pub fn take(state: Stream, chunk: &[u8]) -> Taken
    ensures { TakenAs (take_at (state_says state) chunk.now) result }
{
    let octets = state.octets as usize;
    match Phase::from(state.phase) {
        Phase::Header => stream_header::take(held(state), octets, chunk),
        Phase::Record => stream_whole::take(held(state), octets, chunk),
        Phase::Packet => packet(state).take(chunk),
        Phase::Refused => refused_again(state),
        Phase::Ended => stream_state::at_end(octets),
    }
}

// The sender says that the stream has ended.
pub fn ended(state: Stream) -> Taken
    ensures { TakenAs (end_at (state_says state)) result }
{
    let octets = state.octets as usize;
    match Phase::from(state.phase) {
        Phase::Header => stream_state::refused(octets, Reason::ShortHeader.at(octets)),
        Phase::Record => record_ended(held(state).len(), octets),
        Phase::Packet => packet_ended(octets, packet(state).done),
        Phase::Refused => refused_again(state),
        Phase::Ended => stream_state::at_end(octets),
    }
}

// The octets of a header that are held.
fn held(state: Stream) -> Held
    ensures { result ≡ record { octets = state.held; count = state.count } }
{
    let octets = state.held;
    Held {
        octets,
        count: state.count as usize,
    }
}

// The packet that octets are handed out of.
fn packet(state: Stream) -> Packet
    ensures { result ≡ record { header = state.held; octets = state.octets; done = state.done % 2 ^ 32 } }
{
    let header = state.held;
    Packet {
        header,
        octets: state.octets as usize,
        done: (state.done % 4294967296) as u32,
    }
}

// The refusal that is kept, given again.
fn refused_again(state: Stream) -> Taken
    ensures { TakenAs (refuses state.octets (state.number % 2 ^ 32) state.place) result }
{
    stream_state::refused_by(
        state.octets as usize,
        (state.number % 4294967296) as u32,
        state.place as usize,
    )
}

// The end told to a stream that awaits a record, of whose header so many octets are held.
fn record_ended(have: usize, octets: usize) -> Taken
    ensures { TakenAs (cond (eqb have 0) (ends octets) (refuses octets short_record (octets - have))) result }
{
    if have == 0 {
        stream_state::at_end(octets)
    } else {
        stream_state::refused(octets, Reason::ShortRecord.at(octets.saturating_sub(have)))
    }
}

// The end told to a stream that awaits packet octets.
fn packet_ended(octets: usize, done: u32) -> Taken
    ensures { TakenAs (refuses octets short_packet (octets - (record_length + done))) result }
{
    let start = octets.saturating_sub(RECORD_LENGTH + done as usize);
    stream_state::refused(octets, Reason::ShortPacket.at(start))
}

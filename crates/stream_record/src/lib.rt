// Captures as they arrive: a record's header, and its packet behind it.
#![tactic(auto)]

ghost use Rattle.std.specs.Prelude.{◌≡◌, ◌+◌, ◌++◌, ◌≤◌, ltb, length, take as front};
ghost use Rattle.btsnoop_rules.specs.Record.{record_length, numbers_at};
ghost use Rattle.stream_rules.specs.Stream.{in_record, take_at};
ghost use Rattle.stream_state.specs.State.{octets_held};
ghost use Rattle.stream_state.specs.Rows.{TakenAs};

use btsnoop_rules::RECORD_LENGTH;
use refusals::Reason;
use stream_packet::Packet;
use stream_state::{Held, Phase, Taken};

// It begins as stream_header::take does, at another size; in one function for both each would still have to take up what was
// not answered there, which is no plainer.

// Takes octets of a chunk for a record, of whose header octets are held.
pub fn take(held: Held, octets: usize, chunk: &[u8]) -> Taken
    ensures { TakenAs (take_at (in_record octets (octets_held held)) chunk.now) result }
{
    if !stream_state::within(octets, chunk.len()) {
        return stream_state::refused(octets, Reason::LongStream.at(0));
    }
    let need = RECORD_LENGTH - held.len();
    if chunk.len() < need {
        return stream_state::holding(
            Phase::Record as u64,
            held.with(chunk),
            octets + chunk.len(),
            chunk.len(),
        );
    }
    let header = whole(held, chunk);
    let reached = octets + need;
    if above(&header) {
        let start = reached.saturating_sub(RECORD_LENGTH);
        return stream_state::refused(octets, Reason::IncludedAboveOriginal.at(start + 4));
    }
    let packet = Packet {
        header,
        octets: reached,
        done: 0,
    };
    packet.take_from(chunk, need)
}

// The 24 octets of a header: those held, and the chunk's behind them. Most headers lie whole in the chunk.
fn whole(held: Held, chunk: &[u8]) -> [u8; 24]
    requires { record_length ≤ length (octets_held held) + length chunk.now }
    ensures { result ≡ front record_length (octets_held held ++ chunk.now) }
{
    if held.len() == 0 {
        first(chunk)
    } else {
        held.with(chunk).octets
    }
}

// The first 24 octets of a chunk.
fn first(chunk: &[u8]) -> [u8; 24]
    requires { record_length ≤ length chunk.now }
    ensures { result ≡ front record_length chunk.now }
{
    let mut whole = [0; 24];
    whole.copy_from_slice(&chunk[..RECORD_LENGTH]);
    whole
}

// Whether a record's included length is above its original length.
fn above(header: &[u8; 24]) -> bool
    ensures { result ≡ ltb (numbers_at header.now 0).original (numbers_at header.now 0).included }
{
    btsnoop_numbers::original(header) < btsnoop_numbers::included(header)
}

// Captures as they arrive: the file header.
#![tactic(auto)]

ghost use Rattle.stream_rules.specs.Stream.{in_header, take_at};
ghost use Rattle.stream_state.specs.State.{octets_held};
ghost use Rattle.stream_state.specs.Rows.{TakenAs};

use btsnoop_rules::HEADER_LENGTH;
use refusals::Reason;
use stream_state::{Held, Phase, Taken};

// Takes octets of a chunk for the file header, of which octets are held, until all 16 are there.
pub fn take(held: Held, octets: usize, chunk: &[u8]) -> Taken
    ensures { TakenAs (take_at (in_header octets (octets_held held)) chunk.now) result }
{
    if !stream_state::within(octets, chunk.len()) {
        return stream_state::refused(octets, Reason::LongStream.at(0));
    }
    let need = HEADER_LENGTH.saturating_sub(held.len());
    if chunk.len() < need {
        return stream_state::holding(
            Phase::Header as u64,
            held.with(chunk),
            octets + chunk.len(),
            chunk.len(),
        );
    }
    let whole = held.with(&chunk[..need]);
    match btsnoop_header::read(whole.as_slice()) {
        Ok(code) => stream_state::accepted(code, octets + need, need),
        Err(refusal) => stream_state::refused(octets, refusal),
    }
}

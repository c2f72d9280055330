// Captures as they arrive: a record that lies whole in a chunk, as most do, read from the chunk itself.
#![tactic(auto)]

ghost use Rattle.std.specs.Prelude.{◌≡◌, true, ◌+◌, ◌≤◌};
ghost use Rattle.btsnoop_rules.specs.Record.{record_length};
ghost use Rattle.stream_rules.specs.Stream.{in_record, take_at};
ghost use Rattle.stream_state.specs.State.{octets_held};
ghost use Rattle.stream_state.specs.Rows.{TakenAs};

use btsnoop_rules::{Numbers, RECORD_LENGTH};
use stream_packet::Part;
use stream_state::{Held, Taken};

// Takes octets of a chunk for a record, of whose header octets are held. Most records lie whole in a chunk.
pub fn take(held: Held, octets: usize, chunk: &[u8]) -> Taken
    ensures { TakenAs (take_at (in_record octets (octets_held held)) chunk.now) result }
{
    if held.count == 0 && stream_state::within(octets, chunk.len()) {
        if let Some(header) = chunk.first_chunk::<24>() {
            let numbers = btsnoop_numbers::numbers(header);
            if lies_in(numbers, chunk.len()) {
                let size = numbers.included as usize;
                let taken = RECORD_LENGTH + size;
                let packet = Part {
                    from: RECORD_LENGTH,
                    size,
                    position: 0,
                };
                return stream_packet::finished(octets, numbers, packet, octets + taken, taken);
            }
        }
    }
    stream_record::take(held, octets, chunk)
}

// Whether a record with these numbers is not refused and ends within so many octets.
fn lies_in(numbers: Numbers, size: usize) -> bool
    requires { record_length ≤ size }
    ensures { result ≡ true → (record_length + numbers.included ≤ size) × (numbers.included ≤ numbers.original) }
{
    numbers.included <= numbers.original && numbers.included as usize <= size - RECORD_LENGTH
}

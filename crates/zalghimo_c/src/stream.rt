// The C boundary of captures as they arrive.
ghost use Rattle.std.specs.Prelude.{◌≡◌};
ghost use Rattle.stream_rules.specs.Stream.{fresh, take_at, end_at};
ghost use Rattle.stream_state.specs.State.{state_says};
ghost use Rattle.stream_state.specs.Rows.{TakenAs};

use stream_state::{Stream, Taken};

// The state before the first octet of a stream.
#[unsafe(no_mangle)]
pub extern "C" fn zalghimo_stream_fresh() -> Stream
    ensures { state_says result ≡ fresh }
{
    zalghimo::stream::zalghimo_stream_fresh()
}

// Takes octets of a chunk.
#[unsafe(no_mangle)]
pub extern "C" fn zalghimo_stream_take(state: Stream, chunk: &[u8]) -> Taken
    ensures { TakenAs (take_at (state_says state) chunk.now) result }
{
    zalghimo::stream::zalghimo_stream_take(state, chunk)
}

// The sender says that the stream has ended.
#[unsafe(no_mangle)]
pub extern "C" fn zalghimo_stream_end(state: Stream) -> Taken
    ensures { TakenAs (end_at (state_says state)) result }
{
    zalghimo::stream::zalghimo_stream_end(state)
}

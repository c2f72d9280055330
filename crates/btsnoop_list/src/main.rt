// Lists a BTSnoop file: reads it from standard input and writes its lines to standard output.
#![tactic(auto)]

ghost use Rattle.std.specs.Prelude.{length, ◌≡◌};
ghost use Rattle.std.specs.Io.{ReadsAtMost};

use listing::MOST_LISTED;
use std::io;
use std::io::{Read, Write};

// One octet more than is listed, so that a longer input is known by it.
const INPUT_ROOM: usize = 65537;

fn main(rt: HostRuntime) -> io::Result<()> {
    let mut input = input_room();
    let read = read_full(&mut rt.stdin(), &mut input)?;
    let mut output = output_room();
    list(&mut rt.stdout(), &mut output, &input[..read])
}

// Room for an input.
fn input_room() -> [u8; INPUT_ROOM]
    ensures { 65537 ≡ length result }
{
    room::<INPUT_ROOM>()
}

// Room for every listing.
fn output_room() -> [u8; MOST_LISTED]
    ensures { 524288 ≡ length result }
{
    room::<MOST_LISTED>()
}

// Room for so many octets. The `ensures` of a room gives only its length, which lending it needs.
fn room<const N: usize>() -> [u8; N]
    ensures { N ≡ length result }
{
    [0; N]
}

// Reads until the room is full or the input ends, and tells how many octets it put at the start of the room. std's
// read_to_end would need a Vec, and the program keeps to fixed memory; read_exact tells nothing of a shorter input.
fn read_full(from: &mut impl Read, room: &mut [u8]) -> io::Result<usize>
    ensures { ReadsAtMost result room.new }
{
    let mut done = 0;
    while done < room.len() {
        let n = from.read(&mut room[done..])?;
        if n == 0 {
            break;
        }
        done += n;
    }
    Ok(done)
}

// Writes the listing of an input. It always has room: no listing is longer than the output.
fn list(to: &mut impl Write, output: &mut [u8], input: &[u8]) -> io::Result<()> {
    match listing::write(output, 0, input) {
        Ok(size) => to.write_all(octets::part(output, 0, size)),
        Err(_) => Ok(()),
    }
}

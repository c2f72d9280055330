// The functions that write a BTSnoop file, as the C boundary has them.
#![tactic(auto)]

ghost use Rattle.std.specs.Prelude.{◌≡◌, length};
ghost use Rattle.btsnoop_rules.specs.Writing.{header_writing, header_written, record_writing, record_written};
ghost use Rattle.boundary_write.specs.Rows.{written_row};

use boundary_write::Written;

// Writes a BTSnoop file header into an output at a place.
pub fn header(output: &mut [u8], place: usize, datalink: u32) -> Written
    ensures value { result ≡ written_row (header_writing (length output.old) place datalink) }
    ensures output_after { output.new ≡ header_written output.old place datalink }
{
    boundary_write::row(btsnoop_write::header(output, place, datalink))
}

// Writes a BTSnoop record into an output at a place.
pub fn record(
    output: &mut [u8],
    place: usize,
    original: u32,
    flags: u32,
    drops: u32,
    time: i64,
    packet: &[u8],
) -> Written
    ensures value { result ≡ written_row (record_writing (length output.old) place original packet.now) }
    ensures output_after { output.new ≡ record_written output.old place original flags drops time packet.now }
{
    boundary_write::row(btsnoop_write::record(output, place, original, flags, drops, time, packet))
}

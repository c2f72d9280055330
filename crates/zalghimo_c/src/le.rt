// The C boundary of the LE pseudo-header.
ghost use Rattle.std.specs.Prelude.{◌≡◌, length};
ghost use Rattle.le_rules.specs.Reading.{reading_of};
ghost use Rattle.le_rules.specs.Writing.{writing, written};
ghost use Rattle.boundary_write.specs.Rows.{written_row};
ghost use Rattle.boundary_le.specs.Rows.{le_row, le_values};

use boundary_le::Le;
use boundary_write::Written;

// Reads an LE pseudo-header.
#[unsafe(no_mangle)]
pub extern "C" fn zalghimo_le_read(input: &[u8]) -> Le
    ensures { result ≡ le_row (reading_of input.now) }
{
    zalghimo::le::zalghimo_le_read(input)
}

// Writes an LE pseudo-header and its packet into an output at a place.
#[unsafe(no_mangle)]
pub extern "C" fn zalghimo_le_write(
    output: &mut [u8],
    place: usize,
    rf_channel: u8,
    signal: i8,
    noise: i8,
    offences: u8,
    reference: u32,
    flags: u16,
    packet: &[u8],
) -> Written
    ensures value { result ≡ written_row (writing (length output.old) place (le_values rf_channel signal noise offences reference flags) packet.now) }
    ensures output_after { output.new ≡ written output.old place (le_values rf_channel signal noise offences reference flags) packet.now }
{
    zalghimo::le::zalghimo_le_write(
        output, place, rf_channel, signal, noise, offences, reference, flags, packet,
    )
}

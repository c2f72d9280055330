// The functions of the LE pseudo-header, as the C boundary has them.
#![tactic(auto)]

ghost use Rattle.std.specs.Prelude.{◌≡◌, length};
ghost use Rattle.le_rules.specs.Reading.{reading_of};
ghost use Rattle.le_rules.specs.Writing.{writing, written};
ghost use Rattle.boundary_write.specs.Rows.{written_row};
ghost use Rattle.boundary_le.specs.Rows.{le_row, le_values};

use boundary_le::Le;
use boundary_write::Written;
use le_rules::Values;

// Reads an LE pseudo-header.
pub fn read(input: &[u8]) -> Le
    ensures { result ≡ le_row (reading_of input.now) }
{
    boundary_le::row(le_header::read(input))
}

// Writes an LE pseudo-header and its packet into an output at a place. C hands the six values one by one.
pub fn write(
    output: &mut [u8],
    place: usize,
    rf_channel: u8,
    signal: i8,
    noise: i8,
    offences: u8,
    reference: u32,
    flags: u16,
    packet: &[u8],
) -> Written
    ensures value { result ≡ written_row (writing (length output.old) place (le_values rf_channel signal noise offences reference flags) packet.now) }
    ensures output_after { output.new ≡ written output.old place (le_values rf_channel signal noise offences reference flags) packet.now }
{
    boundary_write::row(le_write::write(
        output,
        place,
        Values {
            channel: rf_channel,
            signal,
            noise,
            offences,
            reference,
            flags,
        },
        packet,
    ))
}

// Writing BTSnoop: the file header and records, into an output at a place.
#![tactic(auto)]

ghost use Rattle.std.specs.Prelude.{◌≡◌, ◌++◌, ◌+◌, ◌≤◌, length};
ghost use Rattle.octets.specs.Numbers.{big, octets_of};
ghost use Rattle.octets.specs.Signed.{unsigned};
ghost use Rattle.octets.specs.Parts.{splice};
ghost use Rattle.btsnoop_rules.specs.Writing.{header_octets, header_writing, header_written, record_writing, record_written};
ghost use Rattle.refusals.specs.Says.{says};

use btsnoop_rules::{HEADER_LENGTH, RECORD_LENGTH};
use numbers::Number;
use refusals::{Reason, Refusal};
use twos_complement::TwosComplement;

// Writes a file header with a datalink code.
pub fn header(out: &mut [u8], place: usize, datalink: u32) -> Result<usize, Refusal>
    ensures result_value { says result ≡ header_writing (length out.old) place datalink }
    ensures out_after { out.new ≡ header_written out.old place datalink }
{
    if !btsnoop_header::served(datalink) {
        return refusals::write_refused(Reason::Datalink);
    }
    if !octets::has_room(out.len(), place, HEADER_LENGTH) {
        return refusals::write_refused(Reason::NoRoom);
    }
    header_octets(out, place, datalink);
    Ok(place + HEADER_LENGTH)
}

// Puts the octets of a file header where there is room for them.
fn header_octets(out: &mut [u8], place: usize, datalink: u32)
    requires { place + 16 ≤ length out.old }
    ensures { out.new ≡ splice out.old place (header_octets datalink) }
{
    octets_put::put(out, place, b"btsnoop\x00");
    1_u32.put_be(out, place + 8);
    datalink.put_be(out, place + 12);
}

// Writes a record; its included length is the packet's. Its numbers are parameters one by one, as the C function has them;
// a struct of them would be made for this call alone.
pub fn record(
    out: &mut [u8],
    place: usize,
    original: u32,
    flags: u32,
    drops: u32,
    time: i64,
    packet: &[u8],
) -> Result<usize, Refusal>
    ensures result_value { says result ≡ record_writing (length out.old) place original packet.now }
    ensures out_after { out.new ≡ record_written out.old place original flags drops time packet.now }
{
    let original_length = original as usize;
    if original_length < packet.len() {
        return refusals::write_refused(Reason::IncludedAboveOriginal);
    }
    let size = RECORD_LENGTH + packet.len();
    if !octets::has_room(out.len(), place, size) {
        return refusals::write_refused(Reason::NoRoom);
    }
    lengths(out, place, original, packet.len() as u32);
    marks(out, place + 8, flags, drops, time);
    octets_put::put(out, place + RECORD_LENGTH, packet);
    Ok(place + size)
}

// Puts a record's two lengths where there is room for them.
fn lengths(out: &mut [u8], place: usize, original: u32, included: u32)
    requires { place + 8 ≤ length out.old }
    ensures { out.new ≡ splice out.old place (octets_of big 4 original ++ octets_of big 4 included) }
{
    original.put_be(out, place);
    included.put_be(out, place + 4);
}

// Puts a record's flags, cumulative drops and time where there is room for them.
fn marks(out: &mut [u8], place: usize, flags: u32, drops: u32, time: i64)
    requires { place + 16 ≤ length out.old }
    ensures { out.new ≡ splice out.old place (octets_of big 4 flags ++ (octets_of big 4 drops ++ octets_of big 8 (unsigned 64 time))) }
{
    flags.put_be(out, place);
    drops.put_be(out, place + 4);
    time.bits().put_be(out, place + 8);
}

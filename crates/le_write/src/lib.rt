// Writing the LE pseudo-header and its packet, into an output at a place.
#![tactic(auto)]

ghost use Rattle.std.specs.Prelude.{◌≡◌, [], ◌∷◌, ◌+◌, ◌≤◌, length};
ghost use Rattle.octets.specs.Parts.{splice};
ghost use Rattle.octets.specs.Signed.{unsigned};
ghost use Rattle.refusals.specs.Says.{says};
ghost use Rattle.le_rules.specs.Writing.{header_octets, writing, written};

use le_rules::{HEADER_LENGTH, Values};
use numbers::Number;
use refusals::{Reason, Refusal};
use twos_complement::TwosComplement;

// Writes values and a packet. The flags alone say the PDU type, the PHY and what is known.
pub fn write(out: &mut [u8], place: usize, values: Values, packet: &[u8]) -> Result<usize, Refusal>
    ensures result_value { says result ≡ writing (length out.old) place values packet.now }
    ensures out_after { out.new ≡ written out.old place values packet.now }
{
    if let Err(fault) = le_ranges::judge(values) {
        return refusals::write_refused(Refusal::from(fault).reason);
    }
    if packet.len() < le_ranges::least_packet(values.flags) {
        return refusals::write_refused(Reason::ShortPacket);
    }
    let size = HEADER_LENGTH + packet.len();
    if !octets::has_room(out.len(), place, size) {
        return refusals::write_refused(Reason::NoRoom);
    }
    header(out, place, values);
    octets_put::put(out, place + HEADER_LENGTH, packet);
    Ok(place + size)
}

// Puts the ten octets of the values where there is room for them.
fn header(out: &mut [u8], place: usize, values: Values)
    requires { place + 10 ≤ length out.old }
    ensures { out.new ≡ splice out.old place (header_octets values) }
{
    octets_put::put(out, place, &single_octets(values));
    values.reference.put_le(out, place + 4);
    values.flags.put_le(out, place + 8);
}

// The four values of one octet each.
fn single_octets(values: Values) -> [u8; 4]
    ensures { result ≡ values.channel ∷ unsigned 8 values.signal ∷ unsigned 8 values.noise ∷ values.offences ∷ [] }
{
    [
        values.channel,
        values.signal.bits(),
        values.noise.bits(),
        values.offences,
    ]
}

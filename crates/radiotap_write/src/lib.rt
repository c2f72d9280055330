// Writing a radiotap header with one presence word into an output at a place.
#![tactic(auto)]

ghost use Rattle.std.specs.Prelude.{◌≡◌, [], ◌∷◌, ◌++◌, ◌+◌, ◌≤◌, length, replicate};
ghost use Rattle.refusals.specs.Says.{says};
ghost use Rattle.octets.specs.Numbers.{little, octets_of};
ghost use Rattle.octets.specs.Parts.{splice, put as put_at};
ghost use Rattle.radiotap_rules.specs.Table.{our_rules};
ghost use Rattle.radiotap_rules.specs.Reading.{fixed_length};
ghost use Rattle.radiotap_rules.specs.Writing.{plan as plan_of, laid, header_octets, writing, written};
ghost use Rattle.radiotap_write.specs.Says.{Accepted};

use numbers::Number;
use radiotap_plan::FIXED_LENGTH;
use refusals::{Reason, Refusal};

// Writes a header: an edition, one presence word, and the values packed without gaps in bit order.
pub fn write(
    out: &mut [u8],
    place: usize,
    edition: u32,
    presence: u32,
    values: &[u8],
) -> Result<usize, Refusal>
    ensures result_value { says result ≡ writing our_rules (length out.old) place edition presence values.now }
    ensures out_after { out.new ≡ written our_rules out.old place edition presence values.now }
{
    if !radiotap_table::served(edition) {
        return refusals::write_refused(Reason::Edition);
    }
    let taken = radiotap_table::writing(edition);
    let Some(plan) = radiotap_plan::planned(taken, presence) else {
        return refusals::write_refused(Reason::UnknownBit);
    };
    if values.len() != plan.summed {
        return refusals::write_refused(Reason::ValuesLength);
    }
    let length = plan.size as usize;
    if !octets::has_room(out.len(), place, length) {
        return refusals::write_refused(Reason::NoRoom);
    }
    put_header(out, place, taken, presence, values, plan.size);
    Ok(place + length)
}

// Puts an accepted header of a length, in the edition taken.
fn put_header(out: &mut [u8], place: usize, taken: u32, presence: u32, values: &[u8], size: u16)
    requires { Accepted (length out.old) place taken presence values.now × (size ≡ length (header_octets our_rules taken presence values.now)) }
    ensures { out.new ≡ splice out.old place (header_octets our_rules taken presence values.now) }
{
    put_fixed(out, place, size, presence);
    put_fields(out, place, taken, presence, values);
}

// Puts a fixed header where there is room for it.
fn put_fixed(out: &mut [u8], place: usize, size: u16, presence: u32)
    requires { place + fixed_length ≤ length out.old }
    ensures { out.new ≡ splice out.old place (0 ∷ 0 ∷ (octets_of little 2 size ++ octets_of little 4 presence)) }
{
    octets_put::put(out, place, b"\0\0");
    size.put_le(out, place + 2);
    presence.put_le(out, place + 4);
}

// Puts the fields of an accepted header behind its fixed header, set bit by set bit. (Each is known, so that the
// table answers where it lies.)
fn put_fields(out: &mut [u8], place: usize, taken: u32, presence: u32, values: &[u8])
    requires { Accepted (length out.old) place taken presence values.now }
    ensures { out.new ≡ splice out.old (place + fixed_length) (laid (plan_of our_rules taken presence) fixed_length values.now) }
{
    let mut free = FIXED_LENGTH;
    let mut used = 0;
    for bit in radiotap_bits::set_bits(presence) {
        let Some(field) = radiotap_table::lay(taken, bit as usize, free) else {
            return;
        };
        let from = free as usize;
        let long = field.size as usize;
        put_pad(out, place + from, field.start - from);
        octets_put::put(out, place + field.start, octets::part(values, used, long));
        free = (field.start + long) as u32;
        used += long;
    }
}

// Puts so many pad octets, at most 8, which is the largest alignment.
fn put_pad(out: &mut [u8], at: usize, n: usize)
    requires { n ≤ 8 }
    ensures { out.new ≡ put_at out.old at (replicate n 0) }
{
    octets_put::put(out, at, octets::part(b"\0\0\0\0\0\0\0\0", 0, n));
}

// Numbers of 16, 32 and 64 bits at a place, in both orders: read from an input, where an octet past the end counts as 0,
// and written into an output, where without room for all its octets nothing is written.
#![tactic(auto)]

ghost use Rattle.std.specs.Prelude.{◌≡◌, ℕ};
ghost use Rattle.octets.specs.Numbers.{little, big, number_at, octets_of};
ghost use Rattle.octets.specs.Parts.{put};

use octets::array;
use octets_put::put;

// A number that stands in octets.
pub trait Number {
    // How many octets it has.
    ghost width: { ℕ };
    // The number itself.
    ghost value: { Self → ℕ };

    // The number at a place, most significant octet first.
    fn be_at(s: &[u8], at: usize) -> Self
        ensures { value result ≡ number_at big width s.now at };

    // The number at a place, least significant octet first.
    fn le_at(s: &[u8], at: usize) -> Self
        ensures { value result ≡ number_at little width s.now at };

    // Writes the number, most significant octet first.
    fn put_be(self, out: &mut [u8], at: usize)
        ensures { out.new ≡ put out.old at (octets_of big width (value self)) };

    // Writes the number, least significant octet first.
    fn put_le(self, out: &mut [u8], at: usize)
        ensures { out.new ≡ put out.old at (octets_of little width (value self)) };
}

impl Number for u16 {
    ghost width = { 2 };

    ghost value = { λ n. n };

    fn be_at(s: &[u8], at: usize) -> u16 {
        u16::from_be_bytes(array(s, at))
    }

    fn le_at(s: &[u8], at: usize) -> u16 {
        u16::from_le_bytes(array(s, at))
    }

    fn put_be(self, out: &mut [u8], at: usize) {
        put(out, at, &u16::to_be_bytes(self));
    }

    fn put_le(self, out: &mut [u8], at: usize) {
        put(out, at, &u16::to_le_bytes(self));
    }
}

impl Number for u32 {
    ghost width = { 4 };

    ghost value = { λ n. n };

    fn be_at(s: &[u8], at: usize) -> u32 {
        u32::from_be_bytes(array(s, at))
    }

    fn le_at(s: &[u8], at: usize) -> u32 {
        u32::from_le_bytes(array(s, at))
    }

    fn put_be(self, out: &mut [u8], at: usize) {
        put(out, at, &u32::to_be_bytes(self));
    }

    fn put_le(self, out: &mut [u8], at: usize) {
        put(out, at, &u32::to_le_bytes(self));
    }
}

impl Number for u64 {
    ghost width = { 8 };

    ghost value = { λ n. n };

    fn be_at(s: &[u8], at: usize) -> u64 {
        u64::from_be_bytes(array(s, at))
    }

    fn le_at(s: &[u8], at: usize) -> u64 {
        u64::from_le_bytes(array(s, at))
    }

    fn put_be(self, out: &mut [u8], at: usize) {
        put(out, at, &u64::to_be_bytes(self));
    }

    fn put_le(self, out: &mut [u8], at: usize) {
        put(out, at, &u64::to_le_bytes(self));
    }
}

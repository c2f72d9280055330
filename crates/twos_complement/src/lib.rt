// Two's complement at 8, 16 and 64 bits: the signed number that bits stand for, at 64 bits from their halves, and back; and
// a signed number in 64 bits.
#![tactic(auto)]

ghost use Rattle.std.specs.Prelude.{◌≡◌, ℕ, ℤ};
ghost use Rattle.octets.specs.Signed.{signed, unsigned, from_halves};

// A signed number that is held in so many bits.
pub trait TwosComplement {
    // What the bits stand in.
    type Bits;

    // How many bits.
    ghost width: { ℕ };
    // The signed number itself.
    ghost number: { Self → ℤ };
    // The bits as a number.
    ghost value: { Self.Bits → ℕ };

    // The signed number of bits.
    fn of_bits(bits: Self::Bits) -> Self
        ensures { number result ≡ signed width (value bits) };

    // The bits of a signed number.
    fn bits(self) -> Self::Bits
        ensures { value result ≡ unsigned width (number self) };

    // The signed number in 64 bits.
    fn wide(self) -> i64
        ensures { result ≡ number self };
}

impl TwosComplement for i8 {
    type Bits = u8;

    ghost width = { 8 };

    ghost number = { λ z. z };

    ghost value = { λ n. n };

    fn of_bits(bits: u8) -> i8 {
        bits.cast_signed()
    }

    fn bits(self) -> u8 {
        self.cast_unsigned()
    }

    fn wide(self) -> i64 {
        i64::from(self)
    }
}

impl TwosComplement for i16 {
    type Bits = u16;

    ghost width = { 16 };

    ghost number = { λ z. z };

    ghost value = { λ n. n };

    fn of_bits(bits: u16) -> i16 {
        bits.cast_signed()
    }

    fn bits(self) -> u16 {
        self.cast_unsigned()
    }

    fn wide(self) -> i64 {
        self.into()
    }
}

impl TwosComplement for i64 {
    type Bits = u64;

    ghost width = { 64 };

    ghost number = { λ z. z };

    ghost value = { λ n. n };

    fn of_bits(bits: u64) -> i64 {
        signed64((bits >> 32) as u32, (bits % 0x1_0000_0000) as u32)
    }

    fn bits(self) -> u64 {
        self.cast_unsigned()
    }

    fn wide(self) -> i64 {
        self
    }
}

// The signed number of 64 bits from its two halves: the high one has the sign.
pub fn signed64(high: u32, low: u32) -> i64
    ensures { result ≡ from_halves high low }
{
    i64::from(high.cast_signed()) * 0x1_0000_0000 + i64::from(low)
}

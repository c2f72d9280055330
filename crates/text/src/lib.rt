// Numbers as decimal text, written into an output at a place. Without room for all of a text nothing is written.
#![tactic(auto)]

ghost use Rattle.std.specs.Prelude.{ℕ, List, ◌∷◌, ◌≡◌, ◌≤◌, length};
ghost use Rattle.octets.specs.Parts.{put as put_at};
ghost use Rattle.text.specs.Decimal.{minus, decimal, signed_decimal};

// A number that has a decimal text.
pub trait DecimalText {
    // Its text.
    ghost text: { Self → List ℕ };
    // The most octets of a text.
    ghost most: { ℕ };

    // Writes the number, and tells how many octets its text has.
    fn put(self, out: &mut [u8], at: usize) -> usize
        ensures value { result ≡ length (text self) }
        ensures upper_bound { result ≤ most }
        ensures out_after { out.new ≡ put_at out.old at (text self) };
}

impl DecimalText for u64 {
    ghost text = { decimal };

    ghost most = { 20 };

    fn put(self, out: &mut [u8], at: usize) -> usize {
        // io spells into an array that it is lent: no heap, so no String.
        let mut text = [0u8; 20];
        let size = io::decimal(self, &mut text);
        octets_put::put(out, at, &text[..size]);
        size
    }
}

impl DecimalText for i64 {
    ghost text = { signed_decimal };

    ghost most = { 21 };

    fn put(self, out: &mut [u8], at: usize) -> usize {
        let magnitude = self.unsigned_abs();
        if self < 0 {
            put_negative(out, at, magnitude)
        } else {
            magnitude.put(out, at)
        }
    }
}

// Writes the sign and a number behind it.
fn put_negative(out: &mut [u8], at: usize, n: u64) -> usize
    ensures value { result ≡ length (minus ∷ decimal n) }
    ensures upper_bound { result ≤ 21 }
    ensures out_after { out.new ≡ put_at out.old at (minus ∷ decimal n) }
{
    let mut text = [0u8; 20];
    let digits = io::decimal(n, &mut text);
    let size = digits + 1;
    if octets::has_room(out.len(), at, size) {
        octets_put::put(out, at, b"-");
        octets_put::put(out, at + 1, &text[..digits]);
    }
    size
}

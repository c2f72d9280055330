// The C boundary of the tally.
ghost use Rattle.std.specs.Prelude.{◌≡◌};
ghost use Rattle.tally_rules.specs.Tally.{updating};
ghost use Rattle.boundary_tally.specs.Rows.{tally_of, entry_of, done_row, tally_after};

use boundary_tally::Done;

// Adds a record to a lent tally of nine numbers, or refuses and leaves the tally as found.
#[unsafe(no_mangle)]
pub extern "C" fn zalghimo_btsnoop_tally(
    numbers: &mut [u64; 9],
    original: u32,
    included: u32,
    flags: u32,
    drops: u32,
) -> Done
    ensures value { result ≡ done_row (updating (tally_of numbers.old) (entry_of original included flags drops)) }
    ensures numbers_after { numbers.new ≡ tally_after numbers.old (updating (tally_of numbers.old) (entry_of original included flags drops)) }
{
    zalghimo::tallying::zalghimo_btsnoop_tally(numbers, original, included, flags, drops)
}

// The function of the tally, as the C boundary has it.
#![tactic(auto)]

ghost use Rattle.std.specs.Prelude.{◌≡◌};
ghost use Rattle.tally_rules.specs.Tally.{updating};
ghost use Rattle.boundary_tally.specs.Rows.{tally_of, entry_of, done_row, tally_after};

use boundary_tally::Done;
use tally_rules::Entry;

// Adds a record to a lent tally of nine numbers, or refuses and leaves the tally as found.
pub fn add(numbers: &mut [u64; 9], original: u32, included: u32, flags: u32, drops: u32) -> Done
    ensures value { result ≡ done_row (updating (tally_of numbers.old) (entry_of original included flags drops)) }
    ensures numbers_after { numbers.new ≡ tally_after numbers.old (updating (tally_of numbers.old) (entry_of original included flags drops)) }
{
    let update = tally::updated(
        boundary_tally::tally_of(*numbers),
        Entry {
            original,
            included,
            flags,
            drops,
        },
    );
    boundary_tally::put(numbers, update);
    boundary_tally::row(update)
}

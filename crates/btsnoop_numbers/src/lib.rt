// The numbers in a record's 24 octets, held apart from an input. Each is one expression of the trait's reader; a function
// of the place beside them would be no shorter.
#![tactic(auto)]

ghost use Rattle.std.specs.Prelude.{◌≡◌};
ghost use Rattle.btsnoop_rules.specs.Record.{numbers_at};

use btsnoop_rules::Numbers;
use numbers::Number;

// The original length.
#[tactic(auto, unfolding(btsnoop_rules::specs::Record::numbers_at))]
pub fn original(held: &[u8; 24]) -> u32
    ensures { result ≡ (numbers_at held.now 0).original }
{
    u32::be_at(held, 0)
}

// The included length.
#[tactic(auto, unfolding(btsnoop_rules::specs::Record::numbers_at))]
pub fn included(held: &[u8; 24]) -> u32
    ensures { result ≡ (numbers_at held.now 0).included }
{
    u32::be_at(held, 4)
}

// The flags.
#[tactic(auto, unfolding(btsnoop_rules::specs::Record::numbers_at))]
fn flags(held: &[u8; 24]) -> u32
    ensures { result ≡ (numbers_at held.now 0).flags }
{
    u32::be_at(held, 8)
}

// The cumulative drops.
#[tactic(auto, unfolding(btsnoop_rules::specs::Record::numbers_at))]
fn drops(held: &[u8; 24]) -> u32
    ensures { result ≡ (numbers_at held.now 0).drops }
{
    u32::be_at(held, 12)
}

// The time.
fn time(held: &[u8; 24]) -> i64
    ensures { result ≡ (numbers_at held.now 0).time }
{
    twos_complement::signed64(u32::be_at(held, 16), u32::be_at(held, 20))
}

// All of them.
pub fn numbers(held: &[u8; 24]) -> Numbers
    ensures { result ≡ numbers_at held.now 0 }
{
    Numbers {
        original: original(held),
        included: included(held),
        flags: flags(held),
        drops: drops(held),
        time: time(held),
    }
}

// Drops between two BTSnoop records.
#![tactic(auto)]

ghost use Rattle.std.specs.Prelude.{◌≡◌};
ghost use Rattle.btsnoop_rules.specs.Drops.{drops_between};

// How many packets were lost between two records: the later cumulative drops less the earlier, modulo 2^32.
#[tactic(auto, unfolding(btsnoop_rules::specs::Drops::drops_between))]
pub fn between(earlier: u32, later: u32) -> u32
    ensures { result ≡ drops_between earlier later }
{
    later.wrapping_sub(earlier)
}

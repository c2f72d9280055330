// The running tally over records: an update by value, and the tally lent to it and changed in place.
#![tactic(auto)]

ghost use Rattle.std.specs.Prelude.{◌≡◌, true, ◌+◌, ◌^◌, cond, eqb};
ghost use Rattle.refusals.specs.Says.{says, says_by};
ghost use Rattle.tally_rules.specs.Tally.{lost_by, added as with_record, adds_up, fits as sums_fit, updating, after_update};

use refusals::{Reason, Refusal};
use tally_rules::{Entry, Tally};

// The tally with a record added, or the refusal.
#[tactic(auto, unfolding(tally_rules::specs::Tally::updating))]
pub fn updated(tally: Tally, entry: Entry) -> Result<Tally, Refusal>
    ensures { says result ≡ updating tally entry }
{
    if !adds_up(tally) {
        return Err(Reason::TallyBroken.at(0));
    }
    added(tally, entry).ok_or(Reason::TallySum.at(0))
}

// Whether sent plus received equals records, and commands plus data equals records.
fn adds_up(tally: Tally) -> bool
    ensures { result ≡ adds_up tally }
{
    sum_is(tally.sent, tally.received, tally.records)
        & sum_is(tally.commands, tally.data, tally.records)
}

// Whether two numbers have this sum, which does not wrap.
fn sum_is(a: u64, b: u64, sum: u64) -> bool
    ensures { result ≡ eqb (a + b) sum }
{
    a.checked_add(b) == Some(sum)
}

// What a record with these drops adds to lost: nothing for the first of a tally.
fn lost_by(tally: Tally, drops: u32) -> u64
    ensures { result ≡ lost_by tally drops }
{
    if tally.records == 0 {
        0
    } else {
        btsnoop_drops::between(tally.last, drops) as u64
    }
}

// The tally with a record added, where all sums stay below 2^64. Received, commands, sent and data are no more than the
// records of a tally that adds up, so that they need no test.
fn added(tally: Tally, entry: Entry) -> Option<Tally>
    requires { adds_up tally ≡ true }
    ensures { result ≡ cond (sums_fit (with_record tally entry)) (Some (with_record tally entry)) None }
{
    let received = btsnoop_record::received(entry.flags);
    let command = btsnoop_record::command(entry.flags);
    let truncated = entry.included < entry.original;
    Some(Tally {
        records: tally.records.checked_add(1)?,
        octets: tally.octets.checked_add(entry.included as u64)?,
        lost: tally.lost.checked_add(lost_by(tally, entry.drops))?,
        truncated: tally.truncated.checked_add(truncated as u64)?,
        received: tally.received + received as u64,
        commands: tally.commands + command as u64,
        sent: tally.sent + !received as u64,
        data: tally.data + !command as u64,
        last: entry.drops,
    })
}

// Adds a record to a lent tally, changed in place; a refusal leaves it as found.
pub fn update(tally: &mut Tally, entry: Entry) -> Result<(), Refusal>
    ensures result_after { says_by (λ _. tally.new) result ≡ updating tally.old entry }
    ensures tally_after { tally.new ≡ after_update tally.old (updating tally.old entry) }
{
    *tally = updated(*tally, entry)?;
    Ok(())
}

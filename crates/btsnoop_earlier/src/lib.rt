// The earlier of two BTSnoop captures, given a place in each: the packet part of the record with the smaller time, and
// the answer beside it, by a second function of the same inputs.
#![tactic(auto)]

ghost use Rattle.std.specs.Prelude.{◌≡◌, cond, eqb, IfErr};
ghost use Rattle.octets.specs.Parts.{part};
ghost use Rattle.refusals.specs.Refusals.{given};
ghost use Rattle.btsnoop_rules.specs.Record.{record_at};
ghost use Rattle.btsnoop_record.specs.Says.{found_of};
ghost use Rattle.btsnoop_earlier.specs.Earlier.{packet_of, decided, earlier_of, earlier_part};
ghost use Rattle.btsnoop_earlier.specs.Says.{capture_says, read_says, packet_says, choice_says, earlier_says};

use btsnoop_record::Record;
use refusals::Refusal;

// One of the two captures.
#[derive(Clone, Copy, Debug, PartialEq, Eq)]
pub enum Capture {
    First,
    Second,
}

impl Capture {
    // Reads the record of this capture at a place.
    fn read(self, s: &[u8], place: usize) -> Result<Option<Record>, CaptureRefusal>
        ensures found { read_says result ≡ record_at s.now place }
        ensures capture { IfErr result (λ e. e.capture ≡ self) }
    {
        btsnoop_record::read(s, place).map_err(|refusal| CaptureRefusal {
            capture: self,
            refusal,
        })
    }

    // The packet of a record of this capture.
    fn packet_of(self, found: Record) -> EarlierPacket
        ensures { packet_says result ≡ packet_of (capture_says self) found.packet found.numbers.included }
    {
        EarlierPacket {
            capture: self,
            packet: found.packet,
            size: found.numbers.included as usize,
        }
    }
}

impl From<Capture> for u64 {
    ghost from_gives = { λ capture number. number ≡ capture_says capture };

    fn from(capture: Capture) -> u64 {
        match capture {
            Capture::First => 1,
            Capture::Second => 2,
        }
    }
}

// The packet of the earlier record: its capture, and its place and length there.
#[derive(Clone, Copy)]
pub struct EarlierPacket {
    pub capture: Capture,
    pub packet: usize,
    pub size: usize,
}

// A refusal and its capture.
#[derive(Clone, Copy)]
pub struct CaptureRefusal {
    pub capture: Capture,
    pub refusal: Refusal,
}

// The packet of the earlier record, as a part of its capture; empty at both ends and on a refusal. Here and
// below the parameters are those of the C function.
#[tactic(auto, unfolding(crate::specs::Earlier::earlier_part))]
pub fn packet<'a>(first: &'a [u8], first_at: usize, second: &'a [u8], second_at: usize) -> &'a [u8]
    ensures { result.now ≡ earlier_part first.now first_at second.now second_at }
{
    match answer(first, first_at, second, second_at) {
        Ok(Some(earlier)) => part_of(first, second, earlier),
        Ok(None) => &first[..0],
        Err(_) => &first[..0],
    }
}

// The answer beside the packet: whose packet it is and where it lies, nothing at both ends, or the refusal.
pub fn answer(
    first: &[u8],
    first_at: usize,
    second: &[u8],
    second_at: usize,
) -> Result<Option<EarlierPacket>, CaptureRefusal>
    ensures { earlier_says result ≡ earlier_of first.now first_at second.now second_at }
{
    let one = Capture::First.read(first, first_at)?;
    let other = Capture::Second.read(second, second_at)?;
    Ok(decide(one, other))
}

// The part of one of two captures.
fn part_of<'a>(first: &'a [u8], second: &'a [u8], earlier: EarlierPacket) -> &'a [u8]
    ensures { result.now ≡ cond (eqb (capture_says earlier.capture) 1) (part first.now earlier.packet earlier.size) (part second.now earlier.packet earlier.size) }
{
    let capture = match earlier.capture {
        Capture::First => first,
        Capture::Second => second,
    };
    octets::part(capture, earlier.packet, earlier.size)
}

// Decides between what the two captures have, each a record or its end: the other's where one is at its end, and
// otherwise the one with the smaller time.
fn decide(first: Option<Record>, second: Option<Record>) -> Option<EarlierPacket>
    ensures { choice_says result ≡ decided (given (found_of first)) (given (found_of second)) }
{
    match (first, second) {
        (None, None) => None,
        (Some(one), None) => Some(Capture::First.packet_of(one)),
        (None, Some(other)) => Some(Capture::Second.packet_of(other)),
        (Some(one), Some(other)) => {
            if one.numbers.time <= other.numbers.time {
                Some(Capture::First.packet_of(one))
            } else {
                Some(Capture::Second.packet_of(other))
            }
        }
    }
}

// The survey of a BTSnoop file by instalments, and the check of a whole file.
#![tactic(auto)]

ghost use Rattle.std.specs.Prelude.{◌≡◌, ◌≤◌, length};
ghost use Rattle.refusals.specs.Says.{says_by};
ghost use Rattle.octets.specs.Numbers.{big, number_at};
ghost use Rattle.btsnoop_rules.specs.Header.{header_length};
ghost use Rattle.btsnoop_rules.specs.Record.{record_at};
ghost use Rattle.btsnoop_rules.specs.File.{survey_at, file_at};
ghost use Rattle.btsnoop_survey.specs.Says.{met_of, survey_says, accepted_of};

use btsnoop_rules::{HEADER_LENGTH, RECORD_LENGTH};
use numbers::Number;
use octets::octet;
use refusals::{Reason, Refusal};

// Where a survey stopped: at the input's end, or at the place reached when its number of records is used up.
#[derive(Clone, Copy)]
pub enum Ending {
    End(usize),
    More(usize),
}

// What a survey answers: how many records it passed, and its ending or the refusal.
#[derive(Clone, Copy)]
pub struct Surveyed {
    pub count: usize,
    pub ending: Result<Ending, Refusal>,
}

// An accepted file: its datalink code and its number of records.
#[derive(Clone, Copy)]
pub struct File {
    pub datalink: u32,
    pub records: usize,
}

// Surveys the records from a place on, passing at most the given number of them.
pub fn survey(s: &[u8], place: usize, number: usize) -> Surveyed
    ensures { survey_says result ≡ survey_at s.now place number }
{
    if place < HEADER_LENGTH || s.len() < place {
        return Surveyed {
            count: 0,
            ending: Err(Reason::RecordPlace.at(place)),
        };
    }
    let mut reached = place;
    for count in 0..number {
        match judge(s, reached) {
            Ok(Some(next)) => reached = next,
            Ok(None) => {
                return Surveyed {
                    count,
                    ending: Ok(Ending::End(reached)),
                };
            }
            Err(refusal) => {
                return Surveyed {
                    count,
                    ending: Err(refusal),
                };
            }
        }
    }
    let ending = if reached == s.len() {
        Ending::End(reached)
    } else {
        Ending::More(reached)
    };
    Surveyed {
        count: number,
        ending: Ok(ending),
    }
}

// Judges the record at a place by its two lengths alone, and answers the place of the next, or nothing at the input's
// end. A survey needs no other number of it: by `btsnoop_record`, which makes the same tests, it would test the place anew and
// read them all at each record.
fn judge(s: &[u8], place: usize) -> Result<Option<usize>, Refusal>
    requires { (header_length ≤ place) × (place ≤ length s.now) }
    ensures { says_by (met_of s.now place) result ≡ record_at s.now place }
{
    if place == s.len() {
        return Ok(None);
    }
    let left = s.len() - place;
    if left < RECORD_LENGTH {
        return Err(Reason::ShortRecord.at(place));
    }
    // Both are widened where they are read: to do so behind the test would delay each step.
    let included = by_octets(s, place + 4) as usize;
    if (u32::be_at(s, place) as usize) < included {
        return Err(Reason::IncludedAboveOriginal.at(place + 4));
    }
    // The packet's place has two uses, so the compiler keeps it, and the step to the next record waits for one sum alone.
    let packet = place + RECORD_LENGTH;
    if s.len() - packet < included {
        return Err(Reason::ShortPacket.at(place));
    }
    Ok(Some(packet + included))
}

// A length at a place, read octet by octet: with one load the processor fetches nothing ahead, and a file above its caches
// takes twice the time.
fn by_octets(s: &[u8], at: usize) -> u32
    ensures { result ≡ number_at big 4 s.now at }
{
    u32::from_be_bytes([
        octet(s, at, 0),
        octet(s, at, 1),
        octet(s, at, 2),
        octet(s, at, 3),
    ])
}

// Checks a whole file: accepted exactly when its header is valid and whole records fill the rest.
pub fn check(s: &[u8]) -> Result<File, Refusal>
    ensures { says_by accepted_of result ≡ file_at s.now }
{
    let datalink = btsnoop_header::read(s)?;
    let surveyed = survey(s, HEADER_LENGTH, s.len());
    match surveyed.ending? {
        Ending::End(_) => Ok(File {
            datalink,
            records: surveyed.count,
        }),
        // A survey of as many records as the input has octets never says "more".
        Ending::More(reached) => Err(Reason::RecordPlace.at(reached)),
    }
}

// Reading a radiotap header in an edition: the header as a whole, and the frame behind it. A header is judged whole first:
// one refused at a field shows none.
#![tactic(auto)]

ghost use Rattle.std.specs.Prelude.{◌≡◌, get_or};
ghost use Rattle.refusals.specs.Refusals.{given};
ghost use Rattle.refusals.specs.Says.{says, says_by};
ghost use Rattle.radiotap_rules.specs.Table.{our_rules};
ghost use Rattle.radiotap_rules.specs.Reading.{presence_words, read_words, reading};
ghost use Rattle.radiotap_rules.specs.Steps.{head_at};
ghost use Rattle.radiotap_rules.specs.Answers.{summary, frame_in};
ghost use Rattle.radiotap.specs.Says.{opening, summary_of};
ghost use Rattle.radiotap.specs.Outcomes.{outcome, summarised};

use radiotap_rules::Head;
use radiotap_step::Stop;
use refusals::{Reason, Refusal};

// A header that is read: how many fields are shown, the frame's place, the pad octet as found, how many presence words,
// and where the reading stopped if it did.
#[derive(Clone, Copy)]
pub struct Reading {
    pub fields: usize,
    pub frame: usize,
    pub pad: u8,
    pub words: u8,
    pub stop: Option<Stop>,
}

// Reads a header in an edition.
pub fn read(s: &[u8], edition: u32) -> Result<Reading, Refusal>
    ensures { says_by summary_of result ≡ summary s.now (reading our_rules edition s.now) }
{
    let head = opened(s, edition)?;
    count(s, radiotap_table::reading(edition), head)
}

// What stands before the fields, asked in an edition.
pub fn opened(s: &[u8], edition: u32) -> Result<Head, Refusal>
    ensures { says result ≡ opening edition (head_at s.now) }
{
    if radiotap_table::served(edition) {
        radiotap_head::read(s)
    } else {
        Err(Reason::Edition.at(0))
    }
}

// Counts the fields behind a head in the edition taken, and so judges the header whole: word by word up to the one that
// calls for no other, and in each word from one bit that is shown to the next. A continued word carries nothing
// and only stops.
fn count(s: &[u8], taken: u32, head: Head) -> Result<Reading, Refusal>
    requires { head_at s.now ≡ given head }
    ensures { says_by summary_of result ≡ summarised (get_or s.now 1 0) head (outcome 0 (read_words our_rules taken s.now head.size (presence_words s.now head.size))) }
{
    let rows = radiotap_table::rows();
    let known = radiotap_bits::known(taken);
    let pad = octets::octet(s, 1, 0);
    let size = head.size as usize;
    let mut index: u32 = 0;
    let mut word = head.first;
    let mut last = 3 + 4 * head.words as usize;
    let mut fields: usize = 0;
    // Goes from word to word up to the last, and not over an index. No `for` over radiotap_bits::set_bits: with it a header
    // of 7 to 21 fields is judged 5 to 11 % slower, past the 1.06 times plain Rust that docs/DECISIONS.md has.
    let stop = loop {
        let carried = radiotap_bits::carries(word, known);
        let mut left = carried.shown;
        while left != 0 {
            let bit = u32::trailing_zeros(left) as usize;
            let span = rows[bit].span();
            let before = last | span.mask;
            last = before + span.size as usize;
            if size <= last {
                return Err(Reason::FieldPastLength.at(before + 1));
            }
            fields += 1;
            left = left & (left - 1);
        }
        if carried.unknown != 0 {
            break Some(Stop {
                word: index,
                bit: u32::trailing_zeros(carried.unknown),
            });
        }
        if (word >> 31) % 2 == 0 {
            break None;
        }
        index += 1;
        let at = 4 + 4 * index as usize;
        let next = u32::from_le_bytes([s[at + 0], s[at + 1], s[at + 2], s[at + 3]]);
        let unknown = radiotap_bits::continued(word, next);
        if unknown != 0 {
            break Some(Stop {
                word: index,
                bit: u32::trailing_zeros(unknown),
            });
        }
        word = next;
    };
    Ok(Reading {
        fields,
        frame: size,
        pad,
        words: head.words,
        stop,
    })
}

// The frame behind a header, as a part of the input; empty where the header is refused.
pub fn frame(s: &[u8], edition: u32) -> &[u8]
    ensures { result.now ≡ frame_in (reading our_rules edition s.now) }
{
    match read(s, edition) {
        Err(_) => &s[..0],
        Ok(reading) => octets::part(s, reading.frame, s.len()),
    }
}

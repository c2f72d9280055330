// What stands before the fields of a radiotap header: the fixed header and the presence words. No edition is asked.
#![tactic(auto)]

ghost use Rattle.std.specs.Prelude.{◌≡◌};
ghost use Rattle.refusals.specs.Says.{says, says_by};
ghost use Rattle.radiotap_rules.specs.Reading.{presence_words};
ghost use Rattle.radiotap_rules.specs.Steps.{head_of_words, head_at, first_cursor};
ghost use Rattle.radiotap_rules.specs.Answers.{word_number};
ghost use Rattle.radiotap_head.specs.Says.{word_of};

use numbers::Number;
use radiotap_rules::{Cursor, Head};
use refusals::{Reason, Refusal};

// At most 8 presence words in all.
pub const MOST_WORDS: u8 = 8;

// Reads what stands before the fields.
pub fn read(s: &[u8]) -> Result<Head, Refusal>
    ensures { says result ≡ head_at s.now }
{
    let size = radiotap_fixed::read(s)?;
    presence(s, size)
}

// Counts the presence words inside a length: bit 31 of a word calls for another.
fn presence(s: &[u8], size: u32) -> Result<Head, Refusal>
    ensures { says result ≡ head_of_words size (presence_words s.now size) }
{
    let first = u32::le_at(s, 4);
    let mut word = first;
    let mut words: u8 = 1;
    // A `for` over the words would test bit 31 and answer twice, in the loop and behind it for the eighth.
    while (word >> 31) % 2 == 1 {
        let at = 4 + 4 * words as usize;
        let end = at + 4;
        if words == MOST_WORDS {
            return Err(Reason::NinthWord.at(4));
        }
        if (size as usize) < end {
            return Err(Reason::WordPastLength.at(4));
        }
        word = u32::le_at(s, at);
        words += 1;
    }
    Ok(Head { size, words, first })
}

// Reads a presence word by its number; none at and past the last of them.
pub fn word(s: &[u8], number: usize) -> Result<Option<u32>, Refusal>
    ensures { says_by word_of result ≡ word_number s.now number }
{
    let head = read(s)?;
    if number < head.words as usize {
        Ok(Some(u32::le_at(s, 4 + 4 * number)))
    } else {
        Ok(None)
    }
}

// The cursor at the first position of a header, behind its last presence word.
pub fn start(head: Head) -> Cursor
    ensures { result ≡ first_cursor head }
{
    Cursor {
        size: head.size,
        words: head.words,
        position: 0,
        bits: head.first,
        at: 4 + 4 * head.words as u32,
    }
}

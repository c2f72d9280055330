// The fields of a radiotap header as a list of numbers, four a field: word, bit, start, size.
#![tactic(auto)]

ghost use Rattle.std.specs.Prelude.{◌≡◌, [], ◌∷◌, map, ◌+◌, ◌*◌, ◌≤◌, length, get_or};
ghost use Rattle.refusals.specs.Refusals.{given};
ghost use Rattle.refusals.specs.Says.{says_by};
ghost use Rattle.octets.specs.Parts.{splice};
ghost use Rattle.radiotap_rules.specs.Table.{our_rules};
ghost use Rattle.radiotap_rules.specs.Reading.{presence_words, read_words, reading};
ghost use Rattle.radiotap_rules.specs.Steps.{head_at, first_cursor};
ghost use Rattle.radiotap_rules.specs.Answers.{summary, listed, listed_into};
ghost use Rattle.radiotap_table.specs.Rows.{in_rules};
ghost use Rattle.radiotap.specs.Says.{opening, summary_of};
ghost use Rattle.radiotap.specs.Outcomes.{outcome, summarised};
ghost use Rattle.radiotap_list.specs.Listing.{room_for, first_fields};

use radiotap::Reading;
use radiotap_rules::Head;
use radiotap_step::Stop;
use radiotap_table::Row;
use refusals::{Reason, Refusal};

// Reads a header in an edition, and puts its fields into a lent list, as many whole fields as fit. The header is judged
// whole first, so that one refused at a field leaves the list as it was.
pub fn fields(s: &[u8], edition: u32, out: &mut [u64]) -> Result<Reading, Refusal>
    ensures result_value { says_by summary_of result ≡ summary s.now (reading our_rules edition s.now) }
    ensures out_after { out.new ≡ listed_into out.old (reading our_rules edition s.now) }
{
    let head = radiotap::opened(s, edition)?;
    twice(s, edition, head, out)
}

// Walks over the fields behind a head twice: with no room, which judges the header, and then with the room of the list.
// One call in a loop is compiled into its place, where two would not be.
fn twice(s: &[u8], edition: u32, head: Head, out: &mut [u64]) -> Result<Reading, Refusal>
    requires { opening edition (head_at s.now) ≡ given head }
    ensures result_value { says_by summary_of result ≡ summary s.now (reading our_rules edition s.now) }
    ensures out_after { out.new ≡ listed_into out.old (reading our_rules edition s.now) }
{
    let taken = radiotap_table::reading(edition);
    let rows = radiotap_table::rows();
    let most = out.len() / 4;
    let mut room = 0;
    let mut judged = false;
    loop {
        let answer = list(s, taken, head, &rows, room, out);
        if judged {
            return answer;
        }
        room = room_for(answer, most);
        judged = true;
    }
}

// The room for a header's fields, in a list that has room for so many: none where the header is refused.
fn room_for(answer: Result<Reading, Refusal>, most: usize) -> usize
    ensures { result ≡ room_for (says_by summary_of answer) most }
{
    match answer {
        Err(_) => 0,
        Ok(_) => most,
    }
}

// Walks over the fields behind a head in the edition taken as `radiotap::read` does, by the rows of the table, and puts
// the first of them into a list, as many as there is room for.
fn list(
    s: &[u8],
    taken: u32,
    head: Head,
    rows: &[Row; 32],
    room: usize,
    out: &mut [u64],
) -> Result<Reading, Refusal>
    requires { (head_at s.now ≡ given head) × (map in_rules rows.now ≡ our_rules.rows) × (4 * room ≤ length out.old) }
    ensures result_value { says_by summary_of result ≡ summarised (get_or s.now 1 0) head (outcome 0 (read_words our_rules taken s.now head.size (presence_words s.now head.size))) }
    ensures out_after { out.new ≡ splice out.old 0 (listed (first_fields our_rules taken s.now room (first_cursor head))) }
{
    let known = radiotap_bits::known(taken);
    let pad = octets::octet(s, 1, 0);
    let size = head.size as usize;
    let mut index: u32 = 0;
    let mut word = head.first;
    let mut last = 3 + 4 * head.words as usize;
    let mut fields = 0;
    let stop = loop {
        let carried = radiotap_bits::carries(word, known);
        for bit in radiotap_bits::set_bits(carried.shown) {
            let span = rows[bit as usize].span();
            let before = last | span.mask;
            last = before + span.size as usize;
            if size <= last {
                return Err(Reason::FieldPastLength.at(before + 1));
            }
            if fields < room {
                put(out, 4 * fields, index, bit, before + 1, span.size);
            }
            fields += 1;
        }
        if carried.unknown != 0 {
            break Some(Stop {
                word: index,
                bit: u32::trailing_zeros(carried.unknown),
            });
        }
        if (word >> 31) % 2 == 0 {
            break None;
        }
        index += 1;
        let at = 4 + 4 * index as usize;
        let next = u32::from_le_bytes([s[at + 0], s[at + 1], s[at + 2], s[at + 3]]);
        let unknown = radiotap_bits::continued(word, next);
        if unknown != 0 {
            break Some(Stop {
                word: index,
                bit: u32::trailing_zeros(unknown),
            });
        }
        word = next;
    };
    Ok(Reading {
        fields,
        frame: size,
        pad,
        words: head.words,
        stop,
    })
}

// Puts the four numbers of a field into a list from an index on.
fn put(out: &mut [u64], at: usize, word: u32, bit: u32, start: usize, size: u8)
    requires { at + 4 ≤ length out.old }
    ensures { out.new ≡ splice out.old at (word ∷ bit ∷ start ∷ size ∷ []) }
{
    out[at] = word as u64;
    out[at + 1] = bit as u64;
    out[at + 2] = start as u64;
    out[at + 3] = size as u64;
}

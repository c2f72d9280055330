// The stored questions of the independent program, the lines that answer them (rust/README.md has the format), and the
// rooms that the questions about writing need.
ghost use Rattle.std.specs.Prelude.{◌≡◌, ◌%◌, ◌^◌, ◌<◌, drop, length, min, MatchOption, IfSome};
ghost use Rattle.vectors.specs.Questions.{question_length, is_among, room_of};

use numbers::Number;

// Standard input and standard output, by their numbers.
pub const STANDARD_INPUT: i32 = 0;

pub const STANDARD_OUTPUT: i32 = 1;

// The length of a question before its octets: its kind, five parameters and two lengths.
const HEAD_LENGTH: usize = 49;

// The most octets of an output that a question asks to write into.
pub const ROOM: usize = 512;

// A question: its kind, its parameters, and the octets that it is about.
#[derive(Clone, Copy)]
pub struct Question<'a> {
    pub kind: u8,
    pub parameters: [u64; 5],
    pub first: &'a [u8],
    pub second: &'a [u8],
}

impl<'a> Question<'a> {
    // The question at the start of an input and what stands behind it; nothing where no whole question stands there.
    pub fn split_from(input: &'a [u8]) -> Option<(Question<'a>, &'a [u8])>
        ensures behind { MatchOption result (question_length input.now ≡ 0) (λ p. p.1.now ≡ drop (question_length input.now) input.now) }
        ensures shorter { IfSome result (λ p. length p.1.now < length input.now) }
    {
        let (head, octets) = input.split_at_checked(HEAD_LENGTH)?;
        let (first, octets) = octets.split_at_checked(u32::be_at(input, 41) as usize)?;
        let (second, behind) = octets.split_at_checked(u32::be_at(input, 45) as usize)?;
        let question = Question {
            kind: head[0],
            parameters: [
                u64::be_at(input, 1),
                u64::be_at(input, 9),
                u64::be_at(input, 17),
                u64::be_at(input, 25),
                u64::be_at(input, 33),
            ],
            first,
            second,
        };
        Some((question, behind))
    }

    // Whether its kind is one of those from a lowest to a highest.
    #[tactic(auto, unfolding(crate::specs::Questions::is_among))]
    pub fn is_among(self, low: u8, high: u8) -> bool
        ensures { result ≡ is_among low high self.entry.kind }
    {
        (low..=high).contains(&self.kind)
    }
}

// Writes numbers in decimal, each after a space, and tells how many.
pub fn numbers(ns: &[u64]) -> usize
    ensures { result ≡ length ns.now }
{
    for &n in ns {
        io::write_all(STANDARD_OUTPUT, b" ");
        io::print_decimal(STANDARD_OUTPUT, n);
    }
    ns.len()
}

// Writes octets in hexadecimal after a space, a dash where there are none, and tells how many.
pub fn octets(s: &[u8]) -> usize
    ensures { result ≡ length s.now }
{
    io::write_all(STANDARD_OUTPUT, b" ");
    if s.is_empty() {
        io::write_all(STANDARD_OUTPUT, b"-");
    }
    for &x in s {
        io::print_hex(STANDARD_OUTPUT, x as u64, 2);
    }
    s.len()
}

// The last 16 bits of a parameter.
pub fn low16(n: u64) -> u16
    ensures { result ≡ n % 2 ^ 16 }
{
    (n % 65536) as u16
}

// The last 32 bits of a parameter.
pub fn low32(n: u64) -> u32
    ensures { result ≡ n % 2 ^ 32 }
{
    (n % 4294967296) as u32
}

// Room for an output, with the octets at its start that stand there before the writing.
pub fn room(before: &[u8]) -> [u8; ROOM]
    ensures size { 512 ≡ length result }
    ensures octets { result ≡ room_of before.now }
{
    let mut out = [0u8; ROOM];
    octets_put::put(&mut out, 0, before);
    out
}

// How many octets of the room are an output's that has these octets before the writing.
pub fn within(before: &[u8]) -> usize
    ensures { result ≡ min (length before.now) 512 }
{
    before.len().min(ROOM)
}

// Reading octets and parts at a place of an input, and whether an output has room. Every function has an answer for
// every input: past the end of an input an octet is 0.
#![tactic(auto)]

ghost use Rattle.std.specs.Prelude.{◌≡◌, ◌+◌, get_or};
ghost use Rattle.octets.specs.Numbers.{octets_at};
ghost use Rattle.octets.specs.Parts.{part as part_of, has_room};

// Whether an input or output of a length has room for so many octets from a place on.
pub fn has_room(size: usize, at: usize, n: usize) -> bool
    ensures { result ≡ has_room size at n }
{
    if size < at {
        return false;
    }
    if n <= size - at { true } else { false }
}

// The octet so many octets after a place, 0 past the end.
pub fn octet(s: &[u8], at: usize, after: usize) -> u8
    ensures { result ≡ get_or s.now (at + after) 0 }
{
    if at < s.len() {
        if after < s.len() - at {
            return s[at + after];
        }
    }
    0
}

// So many octets from a place on, 0 past the end.
pub fn array<const N: usize>(s: &[u8], at: usize) -> [u8; N]
    ensures { result ≡ octets_at s.now at N }
{
    if let Some(whole) = part(s, at, N).first_chunk() {
        return *whole;
    }
    let mut found = [0; N];
    for i in 0..N {
        found[i] = octet(s, at, i);
    }
    found
}

// The part of an input of so many octets from a place on, shorter where the input ends before.
pub fn part(s: &[u8], at: usize, n: usize) -> &[u8]
    ensures { result.now ≡ part_of s.now at n }
{
    if s.len() < at {
        return &s[..0];
    }
    if n < s.len() - at {
        &s[at..at + n]
    } else {
        &s[at..]
    }
}

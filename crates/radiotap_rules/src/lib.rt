// Document 01's rules for radiotap, over any table of fields: the definitions that the promises cite, and the claims
// that follow from them (specs/), demand 3 among them.
#![tactic(auto)]

// What stands before the fields of a header: its length, how many presence words it has, and the first of them.
#[derive(Clone, Copy)]
pub struct Head {
    pub size: u32,
    pub words: u8,
    pub first: u32,
}

// A walk's place in a header: the header's length, how many presence words it has, the position that comes next (bit
// `position` mod 32 of word `position` div 32), the presence word that it lies in, and the first place no field has.
#[derive(Clone, Copy)]
pub struct Cursor {
    pub size: u32,
    pub words: u8,
    pub position: u32,
    pub bits: u32,
    pub at: u32,
}

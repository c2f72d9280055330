// The radiotap structs of the C boundary, and each answer as one of them. Kind 0 is a refusal, 1 values, 2 the end, 4
// read and stopped at a named bit.
#![tactic(auto)]

pub mod rows;

// zalghimo_radiotap
#[repr(C)]
#[derive(Clone, Copy, Default)]
pub struct Radiotap {
    pub kind: u64,
    pub number: u64,
    pub place: u64,
    pub fields: u64,
    pub frame: u64,
    pub word: u64,
    pub bit: u64,
    pub pad: u64,
    pub words: u64,
}

// zalghimo_word
#[repr(C)]
#[derive(Clone, Copy, Default)]
pub struct Word {
    pub kind: u64,
    pub number: u64,
    pub place: u64,
    pub value: u64,
}

// zalghimo_field
#[repr(C)]
#[derive(Clone, Copy, Default)]
pub struct Field {
    pub kind: u64,
    pub number: u64,
    pub place: u64,
    pub word: u64,
    pub bit: u64,
    pub start: u64,
    pub size: u64,
}

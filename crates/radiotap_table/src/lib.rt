// Radiotap's table of fields, a row for each presence bit, and what readers and writers ask of it: which edition is
// taken, and where the field of a bit lies.
#![tactic(auto)]

ghost use Rattle.std.specs.Prelude.{◌≡◌, ◌+◌, ◌%◌, map};
ghost use Rattle.radiotap_rules.specs.Rules.{row_known, edition_taken, served as is_served};
ghost use Rattle.radiotap_rules.specs.Table.{our_rules};
ghost use Rattle.radiotap_rules.specs.Answers.{lay_of};
ghost use Rattle.radiotap_table.specs.Rows.{in_rules};
ghost use Rattle.radiotap_table.specs.Says.{lay_says, LaysRow, SpansRow, AlignedAs};

// A row of the table: the alignment and the size of a field, and the first edition that knows it (0: none). Alignment counts
// from the header's start, so that a field keeps its place whatever stands before the header.
#[derive(Clone, Copy)]
pub struct Row {
    pub alignment: u8,
    pub size: u8,
    pub first: u8,
}

// A row by its three numbers.
macro_rules! row {
    ($alignment:expr, $size:expr, $first:expr) => {
        Row {
            alignment: $alignment,
            size: $size,
            first: $first,
        }
    };
}

// A row for each presence bit.
const ROWS: [Row; 32] = [
    row!(8, 8, 1), // 0: TSFT
    row!(1, 1, 1), // 1: flags
    row!(1, 1, 1), // 2: rate
    row!(2, 4, 1), // 3: channel
    row!(2, 2, 1), // 4: FHSS
    row!(1, 1, 1), // 5: antenna signal, dBm
    row!(1, 1, 1), // 6: antenna noise, dBm
    row!(2, 2, 1), // 7: lock quality
    row!(2, 2, 1), // 8: TX attenuation
    row!(2, 2, 1), // 9: TX attenuation, dB
    row!(1, 1, 1), // 10: TX power, dBm
    row!(1, 1, 1), // 11: antenna
    row!(1, 1, 1), // 12: antenna signal, dB
    row!(1, 1, 1), // 13: antenna noise, dB
    row!(2, 2, 2), // 14: RX flags
    row!(2, 2, 2), // 15: TX flags
    row!(1, 1, 2), // 16: RTS retries
    row!(1, 1, 2), // 17: data retries
    row!(0, 0, 0), // 18: XChannel
    row!(1, 3, 3), // 19: MCS
    row!(4, 8, 3), // 20: A-MPDU status
    row!(2, 12, 3), // 21: VHT
    row!(0, 0, 0), // 22: not in an edition
    row!(0, 0, 0), // 23: not in an edition
    row!(0, 0, 0), // 24: not in an edition
    row!(0, 0, 0), // 25: not in an edition
    row!(0, 0, 0), // 26: not in an edition
    row!(0, 0, 0), // 27: not in an edition
    row!(0, 0, 0), // 28: not in an edition
    row!(0, 0, 0), // 29: radiotap namespace
    row!(0, 0, 0), // 30: vendor namespace
    row!(0, 0, 0), // 31: another presence word
];

// The table as an array to index by presence bit. A constant that is indexed is built anew at each use, so a walk holds
// the array for all fields of a header.
pub fn rows() -> [Row; 32]
    ensures { map in_rules result ≡ our_rules.rows }
{
    ROWS
}

// The newest edition.
pub const NEWEST: u32 = 3;
// The edition that edition 0 asks for when reading.
pub const READING_DEFAULT: u32 = 1;
// The edition that edition 0 asks for when writing.
pub const WRITING_DEFAULT: u32 = 1;

// Where a field lies: its start and its size.
#[derive(Clone, Copy)]
pub struct Lies {
    pub start: usize,
    pub size: u8,
}

// What a field takes: the mask of its alignment, by which it starts behind the last place that is not free, and its size.
#[derive(Clone, Copy)]
pub struct Span {
    pub mask: usize,
    pub size: u8,
}

// Whether an edition is served.
pub fn served(edition: u32) -> bool
    ensures { result ≡ is_served our_rules edition }
{
    edition <= NEWEST
}

// The edition that a reader takes an edition for.
pub fn reading(edition: u32) -> u32
    ensures { result ≡ edition_taken our_rules.reading_default edition }
{
    or_default(edition, READING_DEFAULT)
}

// The edition that a writer takes an edition for.
pub fn writing(edition: u32) -> u32
    ensures { result ≡ edition_taken our_rules.writing_default edition }
{
    or_default(edition, WRITING_DEFAULT)
}

// An edition, or for 0 the default.
fn or_default(edition: u32, default: u32) -> u32
    ensures { result ≡ edition_taken default edition }
{
    if edition == 0 { default } else { edition }
}

// Where the field of a bit lies in the edition taken, from the first free place on; none where the edition doesn't know it.
pub fn lay(taken: u32, bit: usize, at: u32) -> Option<Lies>
    ensures { lay_says result ≡ lay_of our_rules taken bit at }
{
    if 32 <= bit {
        return None;
    }
    let rows = rows();
    rows[bit].lay(taken, at)
}

impl Row {
    // Whether the edition taken knows the row's field.
    pub fn known(self, taken: u32) -> bool
        ensures { result ≡ row_known taken (in_rules self) }
    {
        self.first != 0 && self.first as u32 <= taken
    }

    // Where its field lies in the edition taken, from the first free place on.
    fn lay(self, taken: u32, at: u32) -> Option<Lies>
        ensures { LaysRow (in_rules self) taken at result }
    {
        if !self.known(taken) {
            return None;
        }
        Some(Lies {
            start: aligned(self.alignment, at),
            size: self.size,
        })
    }

    // What its field takes.
    pub fn span(self) -> Span
        ensures { SpansRow (in_rules self) result }
    {
        let mask = mask_of(self.alignment);
        let size = self.size;
        Span { mask, size }
    }
}

// The mask of an alignment: the alignment less one, and all 32 bits for 0.
fn mask_of(alignment: u8) -> usize
    ensures { result ≡ (alignment + 4294967295) % 4294967296 }
{
    (alignment as u32).wrapping_sub(1) as usize
}

// The next multiple of an alignment: a power of two, so that a mask gives the remainder.
fn aligned(alignment: u8, at: u32) -> usize
    ensures { AlignedAs alignment at result }
{
    let mask = mask_of(alignment);
    let past = at as usize + mask;
    past - (past & mask)
}

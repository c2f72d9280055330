// A refusal: its reason, by document 01's list, and the place in the input that it speaks of.
#![tactic(auto)]

ghost use Rattle.std.specs.Prelude.{◌≡◌};
ghost use Rattle.refusals.specs.Refusals.{refused as Refused};
ghost use Rattle.refusals.specs.Says.{number_of, says};

// Why something is refused. The number is document 01's.
#[derive(Clone, Copy, Debug, PartialEq, Eq)]
pub enum Reason {
    // 1: the input is shorter than the fixed header.
    ShortHeader,
    // 2: the identification octets differ.
    Identification,
    // 3: the version is another.
    Version,
    // 4: the datalink code is not served.
    Datalink,
    // 5: fewer octets than a record's header remain where a record starts.
    ShortRecord,
    // 6: the included length is above the original length.
    IncludedAboveOriginal,
    // 7: the packet octets run past the input, or an LE packet is too short.
    ShortPacket,
    // 8: the RF channel is above the highest.
    RfChannel,
    // 9: the radiotap length is below 8 or above the input.
    RadiotapLength,
    // 10: a presence word runs past the length.
    WordPastLength,
    // 11: a ninth presence word is called for.
    NinthWord,
    // 12: a known field runs past the length.
    FieldPastLength,
    // 13: the output has no room from the given place.
    NoRoom,
    // 14: a time cannot be expressed.
    Time,
    // 15: the edition is above the newest.
    Edition,
    // 16: a tally's sum would pass 2^64 - 1.
    TallySum,
    // 17: a record place is outside the part of the input where records lie.
    RecordPlace,
    // 18: a presence bit that the edition doesn't know, bits 29 to 31 included.
    UnknownBit,
    // 19: packed values not of the summed length.
    ValuesLength,
    // 20: the input is above the most octets that are listed.
    ListingInput,
    // 21: the PDU type is the reserved one.
    ReservedPduType,
    // 22: the PHY is the reserved one.
    ReservedPhy,
    // 23: a tally that was not counted from an empty one.
    TallyBroken,
    // 32: a chunk takes the stream past 2^63 - 1 octets.
    LongStream,
    // A number that document 01 gives to none, as a state lent from outside may hold.
    Other(u32),
}

impl Reason {
    // Its number.
    pub fn number(self) -> u32
        ensures { result ≡ number_of self }
    {
        match self {
            Reason::ShortHeader => 1,
            Reason::Identification => 2,
            Reason::Version => 3,
            Reason::Datalink => 4,
            Reason::ShortRecord => 5,
            Reason::IncludedAboveOriginal => 6,
            Reason::ShortPacket => 7,
            Reason::RfChannel => 8,
            Reason::RadiotapLength => 9,
            Reason::WordPastLength => 10,
            Reason::NinthWord => 11,
            Reason::FieldPastLength => 12,
            Reason::NoRoom => 13,
            Reason::Time => 14,
            Reason::Edition => 15,
            Reason::TallySum => 16,
            Reason::RecordPlace => 17,
            Reason::UnknownBit => 18,
            Reason::ValuesLength => 19,
            Reason::ListingInput => 20,
            Reason::ReservedPduType => 21,
            Reason::ReservedPhy => 22,
            Reason::TallyBroken => 23,
            Reason::LongStream => 32,
            Reason::Other(number) => number,
        }
    }

    // The refusal for it at a place.
    pub fn at(self, place: usize) -> Refusal
        ensures { result ≡ record { reason = self; place = place } }
    {
        Refusal {
            reason: self,
            place,
        }
    }
}

// The reason of any number.
impl From<u32> for Reason {
    ghost from_gives = { λ number reason. number_of reason ≡ number };

    fn from(number: u32) -> Reason {
        match number {
            1 => Reason::ShortHeader,
            2 => Reason::Identification,
            3 => Reason::Version,
            4 => Reason::Datalink,
            5 => Reason::ShortRecord,
            6 => Reason::IncludedAboveOriginal,
            7 => Reason::ShortPacket,
            8 => Reason::RfChannel,
            9 => Reason::RadiotapLength,
            10 => Reason::WordPastLength,
            11 => Reason::NinthWord,
            12 => Reason::FieldPastLength,
            13 => Reason::NoRoom,
            14 => Reason::Time,
            15 => Reason::Edition,
            16 => Reason::TallySum,
            17 => Reason::RecordPlace,
            18 => Reason::UnknownBit,
            19 => Reason::ValuesLength,
            20 => Reason::ListingInput,
            21 => Reason::ReservedPduType,
            22 => Reason::ReservedPhy,
            23 => Reason::TallyBroken,
            32 => Reason::LongStream,
            _ => Reason::Other(number),
        }
    }
}

// A refusal: its reason, and the place in the input that it speaks of.
#[derive(Clone, Copy, Debug, PartialEq, Eq)]
pub struct Refusal {
    pub reason: Reason,
    pub place: usize,
}

// A writer's refusal, always at place 0.
pub fn write_refused(reason: Reason) -> Result<usize, Refusal>
    ensures { says result ≡ Refused (number_of reason) 0 }
{
    Err(reason.at(0))
}

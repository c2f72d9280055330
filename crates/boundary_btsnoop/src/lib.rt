// The structs of the C boundary for BTSnoop's readers, and each answer as one of them; a record's is in `boundary_record`.
// Kind 0 is a refusal, 1 values, 2 the end, 3 "more": numbers, since C reads them. The rows are made by functions: a From is
// as long, and its call would not name the row.
#![tactic(auto)]

ghost use Rattle.std.specs.Prelude.{◌≡◌};
ghost use Rattle.refusals.specs.Says.{says, says_by};
ghost use Rattle.btsnoop_survey.specs.Says.{survey_says, accepted_of};
ghost use Rattle.btsnoop_earlier.specs.Says.{earlier_says};
ghost use Rattle.boundary_btsnoop.specs.Rows.{header_row, file_row, survey_row, earlier_row};

use btsnoop_earlier::{CaptureRefusal, EarlierPacket};
use btsnoop_survey::{Ending, Surveyed};
use refusals::Refusal;

// zalghimo_header
#[repr(C)]
#[derive(Clone, Copy)]
pub struct Header {
    pub kind: u64,
    pub number: u64,
    pub place: u64,
    pub datalink: u64,
}

// zalghimo_file
#[repr(C)]
#[derive(Clone, Copy)]
pub struct File {
    pub kind: u64,
    pub number: u64,
    pub place: u64,
    pub datalink: u64,
    pub records: u64,
}

// zalghimo_survey
#[repr(C)]
#[derive(Clone, Copy)]
pub struct Survey {
    pub kind: u64,
    pub number: u64,
    pub place: u64,
    pub count: u64,
    pub reached: u64,
}

// zalghimo_earlier
#[repr(C)]
#[derive(Clone, Copy)]
pub struct Earlier {
    pub kind: u64,
    pub number: u64,
    pub place: u64,
    pub capture: u64,
    pub packet: u64,
    pub size: u64,
}

pub fn header_row(answer: Result<u32, Refusal>) -> Header
    ensures { result ≡ header_row (says answer) }
{
    match answer {
        Ok(datalink) => Header {
            kind: 1,
            number: 0,
            place: 0,
            datalink: datalink as u64,
        },
        Err(refusal) => Header {
            kind: 0,
            number: refusal.reason.number() as u64,
            place: refusal.place as u64,
            datalink: 0,
        },
    }
}

pub fn file_row(answer: Result<btsnoop_survey::File, Refusal>) -> File
    ensures { result ≡ file_row (says_by accepted_of answer) }
{
    match answer {
        Ok(file) => File {
            kind: 1,
            number: 0,
            place: 0,
            datalink: file.datalink as u64,
            records: file.records as u64,
        },
        Err(refusal) => File {
            kind: 0,
            number: refusal.reason.number() as u64,
            place: refusal.place as u64,
            datalink: 0,
            records: 0,
        },
    }
}

pub fn survey_row(answer: Surveyed) -> Survey
    ensures { result ≡ survey_row (survey_says answer) }
{
    let count = answer.count as u64;
    match answer.ending {
        Ok(Ending::End(reached)) => Survey {
            kind: 2,
            number: 0,
            place: 0,
            count,
            reached: reached as u64,
        },
        Ok(Ending::More(reached)) => Survey {
            kind: 3,
            number: 0,
            place: 0,
            count,
            reached: reached as u64,
        },
        Err(refusal) => Survey {
            kind: 0,
            number: refusal.reason.number() as u64,
            place: refusal.place as u64,
            count,
            reached: 0,
        },
    }
}

pub fn earlier_row(answer: Result<Option<EarlierPacket>, CaptureRefusal>) -> Earlier
    ensures { result ≡ earlier_row (earlier_says answer) }
{
    match answer {
        Ok(Some(earlier)) => Earlier {
            kind: 1,
            number: 0,
            place: 0,
            capture: u64::from(earlier.capture),
            packet: earlier.packet as u64,
            size: earlier.size as u64,
        },
        Ok(None) => Earlier {
            kind: 2,
            number: 0,
            place: 0,
            capture: 0,
            packet: 0,
            size: 0,
        },
        Err(refused) => Earlier {
            kind: 0,
            number: refused.refusal.reason.number() as u64,
            place: refused.refusal.place as u64,
            capture: u64::from(refused.capture),
            packet: 0,
            size: 0,
        },
    }
}

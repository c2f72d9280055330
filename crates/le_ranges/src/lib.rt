// Judging the values of an LE pseudo-header, for the reader and the writer.
#![tactic(auto)]

ghost use Rattle.std.specs.Prelude.{◌≡◌};
ghost use Rattle.refusals.specs.Says.{number_of};
ghost use Rattle.le_rules.specs.Reading.{fault_number, fault_place, range_of, least_packet};
ghost use Rattle.le_ranges.specs.Says.{fault_says, range_says};

use le_flags::{PduType, Phy};
use le_rules::Values;
use refusals::{Reason, Refusal};

// The highest RF channel.
const LAST_CHANNEL: u8 = 39;
// The place of the RF channel.
const CHANNEL_PLACE: usize = 0;
// The place of the flags, which have the PDU type and the PHY.
const FLAGS_PLACE: usize = 8;

// A value out of range: an RF channel above 39, PDU type 7, PHY 3.
#[derive(Clone, Copy, Debug, PartialEq, Eq)]
pub enum Fault {
    ChannelAbove,
    PduTypeReserved,
    PhyReserved,
}

// The refusal of a fault, by a reader.
impl From<Fault> for Refusal {
    ghost from_gives = { λ fault refusal. (number_of refusal.reason ≡ fault_number (fault_says fault)) × (refusal.place ≡ fault_place (fault_says fault)) };

    fn from(fault: Fault) -> Refusal {
        match fault {
            Fault::ChannelAbove => Reason::RfChannel.at(CHANNEL_PLACE),
            Fault::PduTypeReserved => Reason::ReservedPduType.at(FLAGS_PLACE),
            Fault::PhyReserved => Reason::ReservedPhy.at(FLAGS_PLACE),
        }
    }
}

// Judges the channel and the flags of values, in the order channel, PDU type, PHY: the first fault, or none.
pub fn judge(values: Values) -> Result<(), Fault>
    ensures { range_says result ≡ range_of values.channel values.flags }
{
    if LAST_CHANNEL < values.channel {
        return Err(Fault::ChannelAbove);
    }
    if PduType::of(values.flags) == PduType::Reserved {
        return Err(Fault::PduTypeReserved);
    }
    if Phy::of(values.flags) == Phy::Reserved {
        return Err(Fault::PhyReserved);
    }
    Ok(())
}

// How many octets a packet has at least: one more for the coded PHY, the coding indicator.
pub fn least_packet(flags: u16) -> usize
    ensures { result ≡ least_packet flags }
{
    if Phy::of(flags) == Phy::LeCoded { 5 } else { 4 }
}

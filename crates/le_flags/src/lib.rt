// What the flags of an LE pseudo-header tell. Every one of the 16 bits may be set; the flags themselves stay whole in the values.
#![tactic(auto)]

ghost use Rattle.std.specs.Prelude.{◌≡◌};
ghost use Rattle.le_rules.specs.Flags.{pdu_type, phy as phy_of, dependent_bits, dependent as dependent_of, told_by};
ghost use Rattle.le_flags.specs.Says.{pdu_type_number, phy_number, auxiliary_number, dependent_says, told_says};

use pseudo_header::Knowledge;

// The PDU type (flags bits 7 to 9), in the order of source document 001, counted from 0.
#[derive(Clone, Copy, Debug, PartialEq, Eq)]
pub enum PduType {
    AdvertisingOrData,
    AuxiliaryAdvertising,
    DataMasterToSlave,
    DataSlaveToMaster,
    ConnectedIsochronousMasterToSlave,
    ConnectedIsochronousSlaveToMaster,
    BroadcastIsochronous,
    Reserved,
}

impl PduType {
    // That of flags.
    pub fn of(flags: u16) -> PduType
        ensures { pdu_type_number result ≡ pdu_type flags }
    {
        match (flags >> 7) % 8 {
            0 => PduType::AdvertisingOrData,
            1 => PduType::AuxiliaryAdvertising,
            2 => PduType::DataMasterToSlave,
            3 => PduType::DataSlaveToMaster,
            4 => PduType::ConnectedIsochronousMasterToSlave,
            5 => PduType::ConnectedIsochronousSlaveToMaster,
            6 => PduType::BroadcastIsochronous,
            _ => PduType::Reserved,
        }
    }
}

// The PHY (flags bits 14 and 15), in the order of source document 001, counted from 0.
#[derive(Clone, Copy, Debug, PartialEq, Eq)]
pub enum Phy {
    Le1M,
    Le2M,
    LeCoded,
    Reserved,
}

impl Phy {
    // That of flags.
    pub fn of(flags: u16) -> Phy
        ensures { phy_number result ≡ phy_of flags }
    {
        match (flags >> 14) % 4 {
            0 => Phy::Le1M,
            1 => Phy::Le2M,
            2 => Phy::LeCoded,
            _ => Phy::Reserved,
        }
    }
}

// The auxiliary kind (flags bits 12 and 13 for PDU type 1), in the order of source document 001, counted from 0.
#[derive(Clone, Copy, Debug, PartialEq, Eq)]
pub enum AuxiliaryKind {
    AuxAdvInd,
    AuxChainInd,
    AuxSyncInd,
    AuxScanRsp,
}

impl AuxiliaryKind {
    // Bits 12 and 13 of flags as one.
    fn of(flags: u16) -> AuxiliaryKind
        ensures { auxiliary_number result ≡ dependent_bits flags }
    {
        match (flags >> 12) % 4 {
            0 => AuxiliaryKind::AuxAdvInd,
            1 => AuxiliaryKind::AuxChainInd,
            2 => AuxiliaryKind::AuxSyncInd,
            _ => AuxiliaryKind::AuxScanRsp,
        }
    }
}

// What flags bits 12 and 13 tell: for PDU type 1 the auxiliary kind, otherwise whether the MIC was checked and passed.
#[derive(Clone, Copy, Debug, PartialEq, Eq)]
pub enum Dependent {
    Auxiliary(AuxiliaryKind),
    Mic { checked: bool, passed: bool },
}

impl Dependent {
    // What bits 12 and 13 of flags tell, which depends on the PDU type.
    fn of(flags: u16) -> Dependent
        ensures { dependent_says result ≡ dependent_of flags }
    {
        match PduType::of(flags) {
            PduType::AuxiliaryAdvertising => Dependent::Auxiliary(AuxiliaryKind::of(flags)),
            _ => Dependent::Mic {
                checked: (flags >> 12) % 2 == 1,
                passed: (flags >> 13) % 2 == 1,
            },
        }
    }
}

// What the flags tell: each of four values as known or not, the PDU type, the PHY, and the bits that depend on the type.
#[derive(Clone, Copy, Debug, PartialEq, Eq)]
pub struct Told {
    pub signal: Knowledge,
    pub noise: Knowledge,
    pub reference: Knowledge,
    pub offences: Knowledge,
    pub pdu: PduType,
    pub phy: Phy,
    pub dependent: Dependent,
}

// What the flags tell, all of it.
pub fn told_by(flags: u16) -> Told
    ensures { told_says result ≡ told_by flags }
{
    Told {
        signal: Knowledge::from((flags >> 1) % 2 == 1),
        noise: Knowledge::from((flags >> 2) % 2 == 1),
        reference: Knowledge::from((flags >> 4) % 2 == 1),
        offences: Knowledge::from((flags >> 5) % 2 == 1),
        pdu: PduType::of(flags),
        phy: Phy::of(flags),
        dependent: Dependent::of(flags),
    }
}

//! The messages to a device.

use crate::cause::CauseCode;
use crate::key::Key;
use crate::list_of::ListOf;
use crate::nas_out::NasOut;
use crate::try_copy::TryCopy;
use std::alloc::AllocError;

/// Does the setup of a context carry an ATTACH ACCEPT (3GPP TS 24.301, 8.2.1)?
#[derive(Clone, Copy, Debug, PartialEq, Eq)]
pub enum Accept {
    /// It does not.
    No,
    /// It does. The access point name in it is the subscriber's.
    Yes {
        /// The PLMN of the device's tracking area: its three octets as one number, the first one highest, below 2^24.
        plmn: u32,
        /// The code of that tracking area.
        tac: u16,
        /// The procedure transaction identity of the request (9.4).
        pti: u8,
        /// The IPv4 address of the device.
        ip: u32,
    },
}

/// A message to a device: to the base station `station`, where its eNB-UE-S1AP-ID is `enb`, below 2^24; or to all of an area.
#[derive(Debug, Drop)]
pub enum Down {
    /// DOWNLINK NAS TRANSPORT (3GPP TS 36.413, 9.1.7.2).
    Nas {
        /// The base station.
        station: u16,
        /// The device there.
        enb: u32,
        /// The NAS message.
        nas: NasOut,
    },
    /// INITIAL CONTEXT SETUP REQUEST with one bearer (9.1.4.1).
    Setup {
        /// The base station.
        station: u16,
        /// The device there.
        enb: u32,
        /// The aggregate maximum bit rate down, at most 10,000,000,000 bit/s (9.2.1.20).
        dl: u64,
        /// The aggregate maximum bit rate up, at most 10,000,000,000 bit/s.
        ul: u64,
        /// The IPv4 address of the serving gateway.
        sgw: u32,
        /// The tunnel endpoint identifier of the serving gateway.
        teid: u32,
        /// The encryption algorithms that the device supports, a bit each, as in NAS (TS 24.301, 9.9.3.34).
        eea: u8,
        /// The integrity algorithms that the device supports, a bit each, as in NAS.
        eia: u8,
        /// The security key (9.2.1.41).
        key: Key,
        /// Does it carry an ATTACH ACCEPT?
        accept: Accept,
    },
    /// UE CONTEXT RELEASE COMMAND (9.1.4.6).
    Release {
        /// The base station.
        station: u16,
        /// The device there.
        enb: u32,
        /// Why.
        cause: CauseCode,
    },
    /// PAGING (9.1.6), to each base station of the device's tracking area.
    Page {
        /// The PLMN of the tracking area: its three octets as one number, the first one highest, below 2^24.
        plmn: u32,
        /// The code of the tracking area.
        tac: u16,
    },
    /// E-RAB SETUP REQUEST (9.1.3.1) of the second bearer, E-RAB 6, with an ACTIVATE DEFAULT EPS BEARER CONTEXT REQUEST. The
    /// access point name in it is the subscriber's second.
    Erab {
        /// The base station.
        station: u16,
        /// The device there.
        enb: u32,
        /// The IPv4 address of the serving gateway.
        sgw: u32,
        /// The tunnel endpoint identifier of the serving gateway for the second bearer.
        teid: u32,
        /// The procedure transaction identity of the request (TS 24.301, 9.4).
        pti: u8,
        /// The IPv4 address of the device on the second connection.
        ip: u32,
    },
    /// INITIAL CONTEXT SETUP REQUEST with two bearers, E-RAB 5 and E-RAB 6, and no ATTACH ACCEPT.
    SetupTwo {
        /// The base station.
        station: u16,
        /// The device there.
        enb: u32,
        /// The aggregate maximum bit rate down, at most 10,000,000,000 bit/s (9.2.1.20).
        dl: u64,
        /// The aggregate maximum bit rate up, at most 10,000,000,000 bit/s.
        ul: u64,
        /// The IPv4 address of the serving gateway for the first bearer.
        sgw: u32,
        /// The tunnel endpoint identifier of the serving gateway for the first bearer.
        teid: u32,
        /// The encryption algorithms that the device supports, a bit each, as in NAS (TS 24.301, 9.9.3.34).
        eea: u8,
        /// The integrity algorithms that the device supports, a bit each, as in NAS.
        eia: u8,
        /// The security key (9.2.1.41).
        key: Key,
        /// The IPv4 address of the serving gateway for the second bearer.
        sgw2: u32,
        /// The tunnel endpoint identifier of the serving gateway for the second bearer.
        teid2: u32,
    },
}

/// By hand, since each field of a derived clone may fail.
impl Clone for Down {
    ghost use Rattle.std.specs.Prelude.{◌≡◌};

    ghost is_clone = { λ down clone. clone ≡ down };

    fn clone(&self) -> Result<Down, AllocError> {
        match self {
            Down::Nas { station, enb, nas } => Ok(Down::Nas {
                station: *station,
                enb: *enb,
                nas: nas.copy()?,
            }),
            Down::Setup {
                station,
                enb,
                dl,
                ul,
                sgw,
                teid,
                eea,
                eia,
                key,
                accept,
            } => Ok(Down::Setup {
                station: *station,
                enb: *enb,
                dl: *dl,
                ul: *ul,
                sgw: *sgw,
                teid: *teid,
                eea: *eea,
                eia: *eia,
                key: key.copy()?,
                accept: *accept,
            }),
            Down::Release {
                station,
                enb,
                cause,
            } => Ok(Down::Release {
                station: *station,
                enb: *enb,
                cause: *cause,
            }),
            Down::Page { plmn, tac } => Ok(Down::Page {
                plmn: *plmn,
                tac: *tac,
            }),
            Down::Erab {
                station,
                enb,
                sgw,
                teid,
                pti,
                ip,
            } => Ok(Down::Erab {
                station: *station,
                enb: *enb,
                sgw: *sgw,
                teid: *teid,
                pti: *pti,
                ip: *ip,
            }),
            Down::SetupTwo {
                station,
                enb,
                dl,
                ul,
                sgw,
                teid,
                eea,
                eia,
                key,
                sgw2,
                teid2,
            } => Ok(Down::SetupTwo {
                station: *station,
                enb: *enb,
                dl: *dl,
                ul: *ul,
                sgw: *sgw,
                teid: *teid,
                eea: *eea,
                eia: *eia,
                key: key.copy()?,
                sgw2: *sgw2,
                teid2: *teid2,
            }),
        }
    }
}

impl TryCopy for Down {
    ghost same = { λ down clone equal. equal };
}

/// Messages to a device, in order.
pub type Downs = ListOf<Down>;

//! The session of a device.
ghost use Rattle.std.specs.Prelude.{◌≡◌};
ghost use Rattle.device_types.specs.Session.{opening};

use crate::cause::CauseCode;
use crate::key::Key;
use crate::short_octets::ShortOctets;
use crate::try_copy::TryCopy;
use std::alloc::{AllocError, Global};

/// Where a device is in its procedures (3GPP TS 23.401, 5.3). In a stage whose name begins with `Await` the answer to a call is
/// awaited.
#[derive(Clone, Copy, Debug, PartialEq, Eq)]
pub enum Stage {
    /// The device is not attached.
    Detached,
    /// It attaches: its authentication vector is asked for.
    AwaitVectors,
    /// It was sent an AUTHENTICATION REQUEST.
    Authenticating,
    /// It was sent a SECURITY MODE COMMAND.
    Securing,
    /// Its subscription is asked for.
    AwaitLocation,
    /// Its session at the gateway is asked for.
    AwaitCreate,
    /// Its base station sets up its context; the device was sent an ATTACH ACCEPT with it.
    Accepting,
    /// The base station has answered, the device has not.
    AcceptingContext,
    /// The device has answered, the base station has not.
    AcceptingDone,
    /// The gateway is told where downlink data goes.
    AwaitModify,
    /// An attached device has asked for service: its base station sets up its context.
    Connecting,
    /// The device has its bearer.
    Connected,
    /// The gateway is told to keep downlink data.
    AwaitRelease,
    /// The base station was told to release the device's context.
    Releasing,
    /// The device is attached, and has no connection.
    Idle,
    /// The gateway is told to delete the device's session.
    AwaitDelete,
    /// The session of its second connection at the gateway is asked for.
    AwaitSecond,
    /// The gateway is told where downlink data of the second connection goes.
    AwaitSecondModify,
}

/// The S1 connection of a device.
#[derive(Clone, Copy, Debug, PartialEq, Eq)]
pub enum Link {
    /// There is none.
    Off,
    /// There is one.
    On {
        /// Its base station, from 1.
        station: u16,
        /// The device's eNB-UE-S1AP-ID there, below 2^24.
        enb: u32,
    },
}

/// The default bearer of a device.
#[derive(Clone, Copy, Debug, PartialEq, Eq)]
pub enum Bearer {
    /// There is none.
    None,
    /// The gateway has it, and no base station.
    Made,
    /// The gateway and a base station have it.
    Active,
}

/// The second connection of a device, and its default bearer.
#[derive(Clone, Copy, Debug, PartialEq, Eq)]
pub enum Second {
    /// There is none.
    None,
    /// The gateway has it: neither the base station nor the device has answered.
    Made,
    /// The base station has its bearer, the device has not answered.
    Radio,
    /// The device has accepted it, the base station has not answered.
    Accepted,
    /// The gateway, a base station and the device have it.
    Active,
}

/// What the core keeps of a device between its steps.
#[derive(Debug, Drop)]
pub struct Session {
    /// Where the device is in its procedures.
    pub stage: Stage,
    /// Its S1 connection.
    pub link: Link,
    /// The PLMN of its tracking area: its three octets as one number, the first one highest, below 2^24.
    pub plmn: u32,
    /// The code of its tracking area.
    pub tac: u16,
    /// The encryption algorithms that it supports, a bit each (3GPP TS 24.301, 9.9.3.34).
    pub eea: u8,
    /// The integrity algorithms that it supports, a bit each.
    pub eia: u8,
    /// The procedure transaction identity of its attach request (TS 24.301, 9.4).
    pub pti: u8,
    /// The response that is expected of it, at most 16 octets (TS 33.401, 6.1).
    pub res: ShortOctets<16>,
    /// Its key.
    pub key: Key,
    /// The aggregate maximum bit rate down, at most 10,000,000,000 bit/s (TS 36.413, 9.2.1.20).
    pub dl: u64,
    /// The aggregate maximum bit rate up, at most 10,000,000,000 bit/s.
    pub ul: u64,
    /// The IPv4 address of its serving gateway.
    pub sgw: u32,
    /// The tunnel endpoint identifier of its serving gateway.
    pub teid: u32,
    /// Its own IPv4 address.
    pub ip: u32,
    /// The IPv4 address of the base station for its bearer.
    pub side_addr: u32,
    /// The tunnel endpoint identifier of the base station for its bearer.
    pub side_teid: u32,
    /// Its default bearer.
    pub bearer: Bearer,
    /// Is it registered?
    pub registered: bool,
    /// Does it wait for no answer to its detach, since it is switched off or was dropped?
    pub off: bool,
    /// Why its context is released.
    pub cause: CauseCode,
    /// How many octets its radio capability has.
    pub radio: u32,
    /// Its second connection.
    pub second: Second,
    /// The procedure transaction identity of its request for the second connection (TS 24.301, 9.4).
    pub pti2: u8,
    /// The IPv4 address of its serving gateway for the second connection.
    pub sgw2: u32,
    /// The tunnel endpoint identifier of its serving gateway for the second connection.
    pub teid2: u32,
    /// Its own IPv4 address on the second connection.
    pub ip2: u32,
    /// The IPv4 address of the base station for its second bearer.
    pub side2_addr: u32,
    /// The tunnel endpoint identifier of the base station for its second bearer.
    pub side2_teid: u32,
}

impl Session {
    /// The session of a device that was never seen. It takes no memory.
    pub fn opening(alloc: Global) -> Session
        ensures { result ≡ opening }
    {
        Session {
            stage: Stage::Detached,
            link: Link::Off,
            plmn: 0,
            tac: 0,
            eea: 0,
            eia: 0,
            pti: 0,
            res: ShortOctets::new(alloc),
            key: Key::zeros(),
            dl: 0,
            ul: 0,
            sgw: 0,
            teid: 0,
            ip: 0,
            side_addr: 0,
            side_teid: 0,
            bearer: Bearer::None,
            registered: false,
            off: false,
            cause: CauseCode {
                group: 0,
                extended: false,
                index: 0,
            },
            radio: 0,
            second: Second::None,
            pti2: 0,
            sgw2: 0,
            teid2: 0,
            ip2: 0,
            side2_addr: 0,
            side2_teid: 0,
        }
    }

    /// The same session, with the expected response and the key of another authentication vector. It takes no memory.
    pub fn with_vector(&self, res: ShortOctets<16>, key: Key) -> Session
        ensures { result ≡ record self.now { res = res; key = key } }
    {
        Session {
            stage: self.stage,
            link: self.link,
            plmn: self.plmn,
            tac: self.tac,
            eea: self.eea,
            eia: self.eia,
            pti: self.pti,
            res,
            key,
            dl: self.dl,
            ul: self.ul,
            sgw: self.sgw,
            teid: self.teid,
            ip: self.ip,
            side_addr: self.side_addr,
            side_teid: self.side_teid,
            bearer: self.bearer,
            registered: self.registered,
            off: self.off,
            cause: self.cause,
            radio: self.radio,
            second: self.second,
            pti2: self.pti2,
            sgw2: self.sgw2,
            teid2: self.teid2,
            ip2: self.ip2,
            side2_addr: self.side2_addr,
            side2_teid: self.side2_teid,
        }
    }
}

/// The session is copied exactly. By hand, since each field of a derived clone may fail, and only two take memory.
impl Clone for Session {
    ghost use Rattle.std.specs.Prelude.{◌≡◌};

    ghost is_clone = { λ session clone. clone ≡ session };

    fn clone(&self) -> Result<Session, AllocError> {
        Ok(self.with_vector(self.res.copy()?, self.key.copy()?))
    }
}

impl TryCopy for Session {
    ghost same = { λ session clone equal. equal };
}

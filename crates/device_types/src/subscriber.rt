//! The subscribers of the core.
ghost use Rattle.std.specs.Prelude.{◌≡◌, ◌≤◌, ◌-◌, IfOk};

use crate::list_of::{Areas, Octets, copy_two};
use crate::try_copy::TryCopy;
use std::alloc::AllocError;

/// A device: the number of its subscriber's row, from 1.
#[derive(Clone, Copy, Debug, PartialEq, Eq)]
pub struct DeviceId(pub u32);

impl DeviceId {
    /// The index, from 0, of what is the device's in a list of a thing a device. It takes no memory.
    pub fn index(self) -> usize
        requires { 1 ≤ self.0 }
        ensures { result ≡ self.0 - 1 }
    {
        self.0 as usize - 1
    }
}

/// A row of the subscriber table.
#[derive(Debug, Drop)]
pub struct Subscriber {
    /// The number of the row, from 1, which is the MME-UE-S1AP-ID of its device too.
    pub number: u32,
    /// The international mobile subscriber identity: the number of its 15 decimal digits (3GPP TS 23.003, 2.2).
    pub imsi: u64,
    /// The temporary identity of the MME, the M-TMSI (TS 23.003, 2.8).
    pub tmsi: u32,
    /// The random challenge of the authentication vector, 16 octets (TS 33.401, 6.1).
    pub rand: Octets,
    /// The authentication token of the vector, 16 octets.
    pub autn: Octets,
    /// The response that is expected, 4 to 16 octets.
    pub res: Octets,
    /// The key of the vector, 32 octets.
    pub key: Octets,
    /// The access point name, 1 to 30 lower-case letters and digits (TS 23.003, 9.1).
    pub apn: Octets,
    /// The IPv4 address of the device.
    pub ip: u32,
    /// The IPv4 address of the serving gateway.
    pub sgw: u32,
    /// The tunnel endpoint identifier of the serving gateway, 1 to 4,000,000,000.
    pub teid: u32,
    /// The aggregate maximum bit rate down, at most 10,000,000,000 bit/s.
    pub ambr_dl: u64,
    /// The aggregate maximum bit rate up, at most 10,000,000,000 bit/s.
    pub ambr_ul: u64,
    /// The tracking areas where the device is not served, at most 16.
    pub forbidden: Areas,
    /// The access point name of the second connection, 1 to 30 lower-case letters and digits, where the subscriber has one.
    pub apn2: Option<Octets>,
    /// The IPv4 address of the device on its second connection, where the subscriber has one.
    pub ip2: Option<u32>,
}

/// Copies a list of octets, where there is one.
fn copy_option(octets: &Option<Octets>) -> Result<Option<Octets>, AllocError>
    ensures { IfOk result (λ copy. copy ≡ octets.now) }
{
    match octets {
        None => Ok(None),
        Some(octets) => Ok(Some(octets.copy()?)),
    }
}

impl Subscriber {
    /// The same numbers, with these lists. It takes no memory.
    fn with_lists(
        &self,
        rand: Octets,
        autn: Octets,
        res: Octets,
        key: Octets,
        apn: Octets,
        forbidden: Areas,
        apn2: Option<Octets>,
    ) -> Subscriber
        ensures { result
            ≡ record self.now { rand = rand; autn = autn; res = res; key = key; apn = apn; forbidden = forbidden; apn2 = apn2 } }
    {
        Subscriber {
            number: self.number,
            imsi: self.imsi,
            tmsi: self.tmsi,
            rand,
            autn,
            res,
            key,
            apn,
            ip: self.ip,
            sgw: self.sgw,
            teid: self.teid,
            ambr_dl: self.ambr_dl,
            ambr_ul: self.ambr_ul,
            forbidden,
            apn2,
            ip2: self.ip2,
        }
    }
}

/// The row is copied exactly. By hand, since each field of a derived clone may fail, and only seven take memory.
impl Clone for Subscriber {
    ghost use Rattle.std.specs.Prelude.{◌≡◌};

    ghost is_clone = { λ row clone. clone ≡ row };

    fn clone(&self) -> Result<Subscriber, AllocError> {
        let (rand, autn) = copy_two(&self.rand, &self.autn)?;
        let (res, key) = copy_two(&self.res, &self.key)?;
        let (apn, apn2) = (self.apn.copy()?, copy_option(&self.apn2)?);
        let forbidden = self.forbidden.copy()?;
        Ok(self.with_lists(rand, autn, res, key, apn, forbidden, apn2))
    }
}

impl TryCopy for Subscriber {
    ghost same = { λ row clone equal. equal };
}

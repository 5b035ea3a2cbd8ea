//! The columns of the subscriber table.

/// A column of the subscriber table, in the order of the table.
#[derive(Clone, Copy, Debug, PartialEq, Eq)]
pub enum Column {
    /// The international mobile subscriber identity.
    Imsi,
    /// The temporary identity of the MME, the M-TMSI.
    Tmsi,
    /// The random challenge of the authentication vector.
    Rand,
    /// The authentication token of the vector.
    Autn,
    /// The response that is expected.
    Res,
    /// The key of the vector.
    Key,
    /// The access point name.
    Apn,
    /// The device's IPv4 address.
    Ip,
    /// The serving gateway's IPv4 address.
    Sgw,
    /// The serving gateway's tunnel endpoint identifier.
    Teid,
    /// The aggregate maximum bit rate down, in bit/s.
    AmbrDl,
    /// The aggregate maximum bit rate up, in bit/s.
    AmbrUl,
    /// The tracking areas where the device is not served.
    Forbidden,
    /// The access point name of a second connection. No row needs it, and none is read yet.
    Apn2,
    /// The device's IPv4 address on its second connection. No row needs it, and none is read yet.
    Ip2,
}

//! What a step makes.

use crate::down::Down;
use crate::list_of::ListOf;
use crate::try_copy::TryCopy;

/// A call of the serving gateway.
#[derive(Clone, Copy, Debug, PartialEq, Eq)]
pub enum GwCall {
    /// Create the device's session (3GPP TS 29.274, 7.2.1).
    Create,
    /// Send downlink data to this IPv4 address and tunnel endpoint identifier of the base station (TS 29.274, 7.2.7).
    Modify(u32, u32),
    /// Keep downlink data, since the device has no bearer on the radio (Release Access Bearers, TS 29.274, 7.2.21).
    Release,
    /// Delete the device's session (TS 29.274, 7.2.9.1).
    Delete,
    /// Create the session of the device's second connection (TS 29.274, 7.2.1).
    SecondCreate,
    /// Send downlink data of the second connection to this IPv4 address and tunnel endpoint identifier of the base station
    /// (TS 29.274, 7.2.7).
    SecondModify(u32, u32),
}

impl TryCopy for GwCall {
    ghost use Rattle.std.proofs.Common.{rules};

    ghost same = { Prim.search rules };
}

/// Calls of the serving gateway, in order.
pub type GwCalls = ListOf<GwCall>;

/// A call of the subscriber server.
#[derive(Clone, Copy, Debug, PartialEq, Eq)]
pub enum SubCall {
    /// Give an authentication vector (3GPP TS 29.272, 5.2.3.1).
    Vectors,
    /// The device is here: give its subscription (Update Location, TS 29.272, 5.2.1.1).
    Location,
    /// The device is gone (Purge UE, TS 29.272, 5.2.1.3). Nothing waits for the answer.
    Purge,
}

impl TryCopy for SubCall {
    ghost use Rattle.std.proofs.Common.{rules};

    ghost same = { Prim.search rules };
}

/// Calls of the subscriber server, in order.
pub type SubCalls = ListOf<SubCall>;

/// What a step makes: a message to the device, or a call of a peer.
#[derive(Clone, Debug, Drop)]
pub enum Effect {
    /// A message to the device, by its base station.
    Down(Down),
    /// A call of the serving gateway.
    Gateway(GwCall),
    /// A call of the subscriber server.
    Subscriber(SubCall),
}

impl TryCopy for Effect {
    ghost use Rattle.std.proofs.Common.{rules};

    ghost same = { Prim.search rules };
}

/// Effects, in the order in which they were made.
pub type Effects = ListOf<Effect>;

//! What became of the devices.

use crate::down::Downs;
use crate::effect::{GwCalls, SubCalls};
use crate::list_of::ListOf;
use crate::session::Session;
use crate::try_copy::TryCopy;

/// What became of a device.
#[derive(Clone, Debug, Drop)]
pub struct DeviceEnd {
    /// How many of its messages were taken.
    pub messages: u64,
    /// How many steps it has made.
    pub steps: u64,
    /// The messages that were sent to it, in order.
    pub downs: Downs,
    /// The calls of the serving gateway for it, in order.
    pub gateway: GwCalls,
    /// The calls of the subscriber server for it, in order.
    pub subscriber: SubCalls,
    /// Its session.
    pub session: Session,
}

impl TryCopy for DeviceEnd {
    ghost use Rattle.std.proofs.Common.{rules};

    ghost same = { Prim.search rules };
}

/// What became of each device, in the order of their numbers.
pub type Finals = ListOf<DeviceEnd>;

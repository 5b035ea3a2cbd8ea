//! Messages of a device, for books that are made here.
ghost use Rattle.std.specs.Prelude.{◌≡◌};
ghost use Rattle.device_types.specs.Message.{IsBody, IsFrom, IsMessage};

use device_types::{Body, Message};

/// A message of that number from base station 1, of eNB-UE-S1AP-ID 1.
pub(crate) fn message(number: u64, body: Body) -> Message
    requires from { IsFrom body 1 1 }
    requires body { IsBody body }
    ensures number { result.number ≡ number }
    ensures message { IsMessage result }
{
    Message {
        number,
        station: 1,
        enb: 1,
        body,
    }
}

/// A request to attach in tracking area 1.
pub(crate) fn attach() -> Body
    ensures from { IsFrom result 1 1 }
    ensures body { IsBody result }
{
    Body::Attach {
        plmn: 0x02f839,
        tac: 1,
        eea: 224,
        eia: 224,
        pti: 1,
    }
}

//! Counts of a device.

ghost use Rattle.std.specs.Prelude.{◌≡◌, ◌+◌, ◌^◌, ◌<◌};
ghost use Rattle.trace_gen.specs.Schedule.{with_call, number_of};
ghost use Rattle.trace_gen.specs.State.{none};

use crate::script::Call;

/// How many messages a device has sent, and how many calls came after them on each lane.
#[derive(Clone, Copy, Debug, PartialEq, Eq)]
pub struct Counts {
    /// The messages.
    pub messages: u64,
    /// The calls of the gateway.
    pub gateway: u64,
    /// The calls of the subscriber server, and the notices to it.
    pub subscriber: u64,
}

impl Counts {
    /// Those of a device that has sent nothing.
    pub fn none() -> Counts
        ensures { result ≡ none }
    {
        Counts {
            messages: 0,
            gateway: 0,
            subscriber: 0,
        }
    }

    /// The number of the next call, on its lane.
    pub fn number_of(self, call: Call) -> u64
        requires gateway { self.gateway + 1 < 2 ^ 64 }
        requires subscriber { self.subscriber + 1 < 2 ^ 64 }
        ensures { result ≡ number_of self call }
    {
        match call {
            Call::Gateway => self.gateway + 1,
            Call::Subscriber | Call::Notice => self.subscriber + 1,
        }
    }

    /// With one call more.
    pub fn with_call(self, call: Call) -> Counts
        requires gateway { self.gateway + 1 < 2 ^ 64 }
        requires subscriber { self.subscriber + 1 < 2 ^ 64 }
        ensures { result ≡ with_call self call }
    {
        let number = self.number_of(call);
        match call {
            Call::Gateway => Counts {
                gateway: number,
                ..self
            },
            Call::Subscriber | Call::Notice => Counts {
                subscriber: number,
                ..self
            },
        }
    }
}

//! What the step table asks of a session, a message and a subscriber.
ghost use Rattle.std.specs.Prelude.{◌≡◌};
ghost use Rattle.device_types.specs.Rule.{number, at, settled, held, gone, attaching, is_attaching, served, here, forbidden};
ghost use Rattle.device_types.specs.Second.{second_number, second_at, has_both};

use crate::message::Message;
use crate::session::{Link, Second, Session, Stage};
use crate::subscriber::Subscriber;
use std::alloc::Global;

impl Stage {
    /// The number of the stage, from 0, in the order in which they are listed.
    pub fn number(self) -> u8
        ensures { result ≡ number self }
    {
        self as u8
    }

    /// Does the device attach, and is it waited for?
    fn is_attaching(self) -> bool
        ensures { result ≡ is_attaching self }
    {
        match self {
            Stage::Authenticating
            | Stage::Securing
            | Stage::Accepting
            | Stage::AcceptingContext
            | Stage::AcceptingDone => true,
            _ => false,
        }
    }
}

impl Second {
    /// The number of the state, from 0, in the order in which they are listed.
    pub fn number(self) -> u8
        ensures { result ≡ second_number self }
    {
        self as u8
    }
}

impl Session {
    /// The allocator that holds the session.
    pub fn alloc(&self) -> Global {
        self.res.alloc()
    }

    /// Is the device in this stage?
    pub fn is_at(&self, stage: Stage) -> bool
        ensures { result ≡ at stage self.now }
    {
        self.stage.number() == stage.number()
    }

    /// Is the second connection in this state?
    pub fn is_second_at(&self, second: Second) -> bool
        ensures { result ≡ second_at second self.now }
    {
        self.second.number() == second.number()
    }

    /// Is no answer to a call awaited?
    pub fn is_settled(&self) -> bool
        ensures { result ≡ settled self.now }
    {
        match self.stage {
            Stage::AwaitVectors
            | Stage::AwaitLocation
            | Stage::AwaitCreate
            | Stage::AwaitModify
            | Stage::AwaitRelease
            | Stage::AwaitDelete
            | Stage::AwaitSecond
            | Stage::AwaitSecondModify => false,
            _ => true,
        }
    }

    /// Is the device registered, and does it stay so?
    pub fn is_held(&self) -> bool
        ensures { result ≡ held self.now }
    {
        match self.stage {
            Stage::Idle | Stage::Connecting | Stage::Connected => true,
            Stage::Releasing => self.registered,
            _ => false,
        }
    }

    /// Is the device detached, or on the way to it?
    pub fn is_gone(&self) -> bool
        ensures { result ≡ gone self.now }
    {
        match self.stage {
            Stage::Detached => true,
            Stage::Releasing => !self.registered,
            _ => false,
        }
    }

    /// Does the device attach, and is it waited for?
    pub fn is_attaching(&self) -> bool
        ensures { result ≡ attaching self.now }
    {
        self.stage.is_attaching()
    }

    /// Does the device attach, and is it waited for, or has it its connection or gets it?
    pub fn is_served(&self) -> bool
        ensures { result ≡ served self.now }
    {
        match self.stage {
            Stage::Connecting | Stage::Connected => true,
            stage => stage.is_attaching(),
        }
    }

    /// Did the message come on the session's S1 connection?
    pub fn is_here(&self, message: &Message) -> bool
        ensures { result ≡ here self.now message.now }
    {
        match self.link {
            Link::Off => false,
            Link::On { station, enb } => station == message.station && enb == message.enb,
        }
    }
}

impl Subscriber {
    /// Is the device not served in this tracking area?
    pub fn is_forbidden(&self, tac: u16) -> bool
        ensures { result ≡ forbidden self.now tac }
    {
        self.forbidden.items().iter().any(|area| *area == tac)
    }

    /// Has the subscriber an access point name and an address for a second connection?
    pub fn has_both(&self) -> bool
        ensures { result ≡ has_both self.now }
    {
        self.apn2.is_some() && self.ip2.is_some()
    }
}

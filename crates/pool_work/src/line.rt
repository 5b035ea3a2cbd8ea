//! The channel of inputs, and its rule.
ghost use Rattle.std.specs.Prelude.{length, All, IfOk, IfSome};
ghost use Rattle.crossbeam_channel.specs.Claims.{IsSeatAt};
ghost use Rattle.crossbeam_channel.specs.Ends.{receives_on, sends_on};
ghost use Rattle.session_store.specs.Charter.{CharterState};
ghost use Rattle.session_store.specs.Rows.{IsDevice};
ghost use Rattle.pool_work.specs.Packets.{IsPacket};

use crate::lines::messages_of;
use crossbeam_channel::protocol::{Lesson, Outcome, Protocol, Split};
use crossbeam_channel::{Pass, RuledReceiver, RuledSender};
use device_types::{DeviceId, Input, TryCopy};
use session_store::Charter;
use std::alloc::AllocError;
use std::marker::{Brand, PhantomData};
use std::sync::Wait;

/// The table and the book of a run. Each run picks its own.
pub trait Named {
    ghost charter: { CharterState };
}

impl Named for Brand {
    ghost use Rattle.std.specs.Prelude.{[]};

    ghost charter = { record { rows = []; lines = [] } };
}

/// An input of a device.
#[derive(Drop)]
pub struct Packet {
    /// The device.
    pub d: DeviceId,
    /// The message, or the answer to a call.
    pub input: Input,
}

/// The rule: each packet is the book's message of its number, or the peer's answer to the call of its number.
pub struct OwnPackets<C> {
    marker: PhantomData<C>,
}

impl<C: Named> Protocol<Packet, ()> for OwnPackets<C> {
    ghost holds = { λ items views. All (IsPacket C.charter) items };

    ghost first = { tt };
}

/// A packet is taken out, and is one.
pub(crate) struct Takes<C> {
    marker: PhantomData<C>,
}

impl<C: Named> Outcome<Packet, ()> for Takes<C> {
    ghost then = { λ v x w. IsPacket C.charter x };
}

impl<C: Named> Lesson<Packet, ()> for Takes<C> {
    ghost fact = { λ v items. Unit {0} };
}

/// Nothing is told.
pub(crate) struct Plain;

impl Outcome<Packet, ()> for Plain {
    ghost then = { λ v x w. Unit {0} };
}

impl Lesson<Packet, ()> for Plain {
    ghost fact = { λ v items. Unit {0} };
}

/// One more pass.
pub(crate) struct More;

impl Split<()> for More {
    ghost left = { λ v. v };

    ghost right = { λ v. v };
}

/// What packets are put into.
pub type Line<C> = RuledSender<Packet, (), OwnPackets<C>>;

/// What packets are taken out of.
pub type Ends<C> = RuledReceiver<Packet, (), OwnPackets<C>>;

/// A thread's place at the channel.
pub type Place = Pass<Packet, ()>;

/// Puts a packet into the channel. False where no one is left to take it.
pub fn send<C: Named, R: Wait>(rt: &R, line: &Line<C>, place: &mut Place, packet: Packet) -> bool
    requires place { IsSeatAt (sends_on line.now) place.old }
    requires packet { IsPacket C.charter packet }
    ensures place { IsSeatAt (sends_on line.now) place.new }
{
    line.send_as::<Plain, R>(rt, place, packet).is_ok()
}

/// Takes a packet out of the channel, and waits for one. None where no one is left to send one.
pub(crate) fn receive<C: Named, R: Wait>(
    rt: &R,
    ends: &Ends<C>,
    place: &mut Place,
) -> Option<Packet>
    requires place { IsSeatAt (receives_on ends.now) place.old }
    ensures place { IsSeatAt (receives_on ends.now) place.new }
    ensures packet { IfSome result (IsPacket C.charter) }
{
    match ends.recv_as::<Takes<C>, R>(rt, place) {
        Ok(packet) => Some(packet),
        Err(_) => None,
    }
}

/// One more place for a thread.
pub fn another<C: Named>(line: &Line<C>, place: &mut Place) -> Place
    requires place { IsSeatAt (sends_on line.now) place.old }
    ensures place { IsSeatAt (sends_on line.now) place.new }
    ensures other { IsSeatAt (sends_on line.now) result }
{
    line.another::<More>(place)
}

/// The device's message behind so many, if there is one.
pub fn message_at(charter: &Charter, d: DeviceId, at: u64) -> Result<Option<Packet>, AllocError>
    requires { IsDevice (length charter.now.rows) d.0 }
    ensures { IfOk result (λ packet. IfSome packet (IsPacket charter.now)) }
{
    let messages = messages_of(charter, d);
    let Ok(at) = usize::try_from(at) else {
        return Ok(None);
    };
    let Some(message) = messages.get(at) else {
        return Ok(None);
    };
    Ok(Some(Packet {
        d,
        input: Input::Message(message.copy()?),
    }))
}

//! The lines of a device.

ghost use Rattle.std.specs.Prelude.{◌≡◌, ◌++◌, All, Some, OnOk, string_bytes};
ghost use Rattle.echo_base.specs.Reason.{zero_filled};
ghost use Rattle.device_types.specs.Down.{IsDown};
ghost use Rattle.device_types.specs.Finals.{IsEndOf};
ghost use Rattle.device_types.specs.Subscriber.{IsSubscriber};
ghost use Rattle.report_text.specs.Lines.{ended, numbered, hex_filled};
ghost use Rattle.report_text.specs.Device.{device_line, down_line, station_of, sent_line, gateway_line, subscriber_line};
ghost use Rattle.report_text.specs.Final.{device_text};

use crate::session::put_session_lines;
use device_types::{DeviceEnd, Down, GwCall, SubCall, Subscriber};
use echo_base::{OutOfMemory, encode_hex};
use entry_edge::down_bytes;
use std::alloc::Global;
use std::fmt;

/// An IMSI, in its 15 digits.
#[derive(Clone, Copy)]
pub(crate) struct Imsi(pub(crate) u64);

impl fmt::Display for Imsi {
    ghost output = { λ imsi. Some (zero_filled 15 imsi.0) };

    #[tactic(auto, using(echo_base::proofs::Printed::zeros_in_front))]
    fn fmt<W: fmt::Write>(&self, f: &mut fmt::Formatter<W>) -> fmt::Result {
        let imsi = self.0;
        write!(f, "{imsi:015}")
    }
}

/// An address, in eight hexadecimal digits.
#[derive(Clone, Copy)]
struct Address(u32);

impl fmt::Display for Address {
    ghost output = { λ address. Some (hex_filled 8 address.0) };

    #[tactic(auto, using(crate::proofs::Filled::eight_digits))]
    fn fmt<W: fmt::Write>(&self, f: &mut fmt::Formatter<W>) -> fmt::Result {
        let address = self.0;
        write!(f, "{address:08x}")
    }
}

/// The first line of a device, without its end.
#[derive(Clone, Copy)]
struct DeviceLine {
    imsi: u64,
    messages: u64,
    steps: u64,
}

impl fmt::Display for DeviceLine {
    ghost output = { λ line. Some (device_line line.imsi line.messages line.steps) };

    fn fmt<W: fmt::Write>(&self, f: &mut fmt::Formatter<W>) -> fmt::Result {
        let DeviceLine {
            imsi,
            messages,
            steps,
        } = *self;
        let imsi = Imsi(imsi);
        write!(f, "device {imsi} messages {messages} steps {steps}")
    }
}

/// A call of the gateway with its number, without the line's end.
#[derive(Clone, Copy)]
struct GatewayLine(u64, GwCall);

impl fmt::Display for GatewayLine {
    ghost output = { λ line. Some (gateway_line line.0 line.1) };

    fn fmt<W: fmt::Write>(&self, f: &mut fmt::Formatter<W>) -> fmt::Result {
        let GatewayLine(number, call) = *self;
        write!(f, "gateway {number} ")?;
        match call {
            GwCall::Create => write!(f, "create"),
            GwCall::Modify(addr, teid) => {
                let addr = Address(addr);
                write!(f, "modify {addr} {teid}")
            }
            GwCall::Release => write!(f, "release"),
            GwCall::Delete => write!(f, "delete"),
            GwCall::SecondCreate => write!(f, "second-create"),
            GwCall::SecondModify(addr, teid) => {
                let addr = Address(addr);
                write!(f, "second-modify {addr} {teid}")
            }
        }
    }
}

/// A call of the subscriber server with its number, without the line's end.
#[derive(Clone, Copy)]
struct SubscriberLine(u64, SubCall);

impl fmt::Display for SubscriberLine {
    ghost output = { λ line. Some (subscriber_line line.0 line.1) };

    fn fmt<W: fmt::Write>(&self, f: &mut fmt::Formatter<W>) -> fmt::Result {
        let SubscriberLine(number, call) = *self;
        write!(f, "subscriber {number} ")?;
        match call {
            SubCall::Vectors => write!(f, "vectors"),
            SubCall::Location => write!(f, "location"),
            SubCall::Purge => write!(f, "purge"),
        }
    }
}

/// Puts the first line of a device behind a text.
fn put_device_line(text: &mut String, line: DeviceLine) -> Result<(), OutOfMemory>
    ensures { OnOk result (string_bytes text.new ≡ string_bytes text.old ++ ended (device_line line.imsi line.messages line.steps)) }
{
    writeln!(text, "{line}")
}

/// The base station of a message; a paging goes to all of an area, for which 0 stands.
fn station_of(down: &Down) -> u16
    ensures { result ≡ station_of down.now }
{
    match down {
        Down::Nas { station, .. } => *station,
        Down::Setup { station, .. } => *station,
        Down::Release { station, .. } => *station,
        Down::Page { .. } => 0,
        Down::Erab { station, .. } => *station,
        Down::SetupTwo { station, .. } => *station,
    }
}

/// Puts the line of a message behind a text.
fn put_octets(
    alloc: Global,
    text: &mut String,
    number: u64,
    station: u16,
    octets: &[u8],
) -> Result<(), OutOfMemory>
    ensures { OnOk result (string_bytes text.new ≡ string_bytes text.old ++ ended (down_line number station octets.now)) }
{
    let digits = encode_hex(alloc, octets)?;
    writeln!(text, "down {number} {station} {digits}")
}

/// Puts the line of a message behind a text.
fn put_down(
    alloc: Global,
    text: &mut String,
    row: &Subscriber,
    number: u64,
    down: &Down,
) -> Result<(), OutOfMemory>
    requires row { IsSubscriber row.now }
    requires down { IsDown row.now down.now }
    ensures { OnOk result (string_bytes text.new ≡ string_bytes text.old ++ ended (sent_line row.now number down.now)) }
{
    let octets = down_bytes(alloc, row, down)?;
    put_octets(alloc, text, number, station_of(down), octets.octets())
}

/// Puts the messages to a device behind a text.
fn put_downs(
    alloc: Global,
    text: &mut String,
    row: &Subscriber,
    downs: &[Down],
) -> Result<(), OutOfMemory>
    requires row { IsSubscriber row.now }
    requires downs { All (IsDown row.now) downs.now }
    ensures { OnOk result (string_bytes text.new ≡ string_bytes text.old ++ numbered (sent_line row.now) downs.now) }
{
    let mut number = 0;
    for down in downs {
        number += 1;
        put_down(alloc, text, row, number, down)?;
    }
    Ok(())
}

/// Puts the line of a call to the gateway behind a text: its number on the lane, its name and its values.
fn put_gateway_line(text: &mut String, number: u64, call: GwCall) -> Result<(), OutOfMemory>
    ensures { OnOk result (string_bytes text.new ≡ string_bytes text.old ++ ended (gateway_line number call)) }
{
    let line = GatewayLine(number, call);
    writeln!(text, "{line}")
}

/// Puts the line of a call to the subscriber server behind a text: its number on the lane, and its name.
fn put_subscriber_line(text: &mut String, number: u64, call: SubCall) -> Result<(), OutOfMemory>
    ensures { OnOk result (string_bytes text.new ≡ string_bytes text.old ++ ended (subscriber_line number call)) }
{
    let line = SubscriberLine(number, call);
    writeln!(text, "{line}")
}

/// Puts a line for each call to the gateway behind a text, numbered from 1.
fn put_gateway(text: &mut String, calls: &[GwCall]) -> Result<(), OutOfMemory>
    ensures { OnOk result (string_bytes text.new ≡ string_bytes text.old ++ numbered gateway_line calls.now) }
{
    let mut number = 0;
    for call in calls {
        number += 1;
        put_gateway_line(text, number, *call)?;
    }
    Ok(())
}

/// Puts a line for each call to the subscriber server behind a text, numbered from 1.
fn put_subscriber(text: &mut String, calls: &[SubCall]) -> Result<(), OutOfMemory>
    ensures { OnOk result (string_bytes text.new ≡ string_bytes text.old ++ numbered subscriber_line calls.now) }
{
    let mut number = 0;
    for call in calls {
        number += 1;
        put_subscriber_line(text, number, *call)?;
    }
    Ok(())
}

/// Puts what became of a device behind a text.
#[tactic(auto, unfolding(crate::specs::Final::device_text))]
pub fn put_device(
    alloc: Global,
    text: &mut String,
    row: &Subscriber,
    end: &DeviceEnd,
) -> Result<(), OutOfMemory>
    requires row { IsSubscriber row.now }
    requires downs { IsEndOf row.now end.now }
    ensures { OnOk result (string_bytes text.new ≡ string_bytes text.old ++ device_text row.now end.now) }
{
    let line = DeviceLine {
        imsi: row.imsi,
        messages: end.messages,
        steps: end.steps,
    };
    put_device_line(text, line)?;
    put_downs(alloc, text, row, end.downs.items())?;
    put_gateway(text, end.gateway.items())?;
    put_subscriber(text, end.subscriber.items())?;
    put_session_lines(text, &end.session)
}

//! Four devices: one attaches, one answers the challenge wrongly, one attaches where it may not be, and one says nothing.
ghost use Rattle.std.specs.Prelude.{◌≡◌, ◌⊎◌, ◌+◌, [], length, All, IfOk, OnOk};
ghost use Rattle.device_types.specs.Line.{IsLine};
ghost use Rattle.device_types.specs.Message.{IsBody, IsFrom, IsMessage};
ghost use Rattle.device_types.specs.Subscriber.{IsSubscriber};
ghost use Rattle.session_store.specs.Charter.{IsShort};

use device_types::{Body, Book, Message, Messages, Octets, Subscriber};
use std::alloc::{AllocError, Global};
use std::test::Fail;
use subs_table::{SubsTable, read_row};

/// What the rows of the four devices have in common.
const COMMON: &str = r#"
"rand":"000102030405060708090a0b0c0d0e0f","autn":"101112131415161718191a1b1c1d1e1f","res":"a0a1a2a3",
"key":"1111111111111111111111111111111111111111111111111111111111111111","apn":"internet","sgw":"c0a80001",
"ambr_dl":1000000000,"ambr_ul":2000000000,"forbidden":[9]"#;

/// The row of a device.
fn row_of(alloc: Global, number: u32) -> Result<Subscriber, Fail>
    ensures range { IfOk result IsSubscriber }
    ensures numbered { IfOk result (λ row. row.number ≡ number) }
{
    let own = format!(in alloc;
        "\"imsi\":\"20893000000000{number}\",\"tmsi\":{number},\"ip\":\"0a2d000{number}\",\"teid\":{number}"
    )?;
    let line = format!(in alloc; "{{{own},{COMMON}}}")?;
    let row = read_row(alloc, line.as_bytes(), number)?;
    Ok(row)
}

/// Adds the row of the next device.
pub(crate) fn add_row(alloc: Global, table: &mut SubsTable) -> Result<(), Fail>
    ensures { OnOk result (length table.new ≡ length table.old + 1) }
{
    let row = row_of(alloc, table.len() + 1)?;
    table.add(row)?;
    Ok(())
}

/// Adds the rows of the four devices.
fn add_rows(alloc: Global, table: &mut SubsTable) -> Result<(), Fail> {
    for _ in 0..4 {
        add_row(alloc, table)?;
    }
    Ok(())
}

/// The rows of the four devices.
pub(crate) fn table(alloc: Global) -> Result<SubsTable, Fail> {
    let mut table = SubsTable::new(alloc);
    add_rows(alloc, &mut table)?;
    Ok(table)
}

/// A message of the one connection of a device, on which no notice comes.
pub(crate) fn message(number: u64, body: Body) -> Message
    requires from { IsFrom body 1 7 }
    requires body { IsBody body }
    ensures number { result.number ≡ number }
    ensures message { IsMessage result }
{
    Message {
        number,
        station: 1,
        enb: 7,
        body,
    }
}

/// A request to attach in a tracking area.
fn attach(tac: u16) -> Body
    requires { tac ≡ 1 ⊎ tac ≡ 9 }
    ensures from { IsFrom result 1 7 }
    ensures body { IsBody result }
{
    Body::Attach {
        plmn: 31,
        tac,
        eea: 32,
        eia: 33,
        pti: 34,
    }
}

/// A response of four octets to the challenge.
fn response(alloc: Global, last: u8) -> Result<Body, AllocError>
    ensures from { IfOk result (λ body. IsFrom body 1 7) }
    ensures body { IfOk result IsBody }
{
    let res = [0xa0, 0xa1, 0xa2, last];
    Ok(Body::Response {
        res: Octets::from(Vec::from_array(alloc, res)?),
    })
}

/// An attach, the right response to the challenge, and that its security mode is complete.
fn attaches(alloc: Global) -> Result<Messages, AllocError>
    ensures line { IfOk result IsLine }
    ensures short { IfOk result IsShort }
{
    let messages = [
        message(1, attach(1)),
        message(2, response(alloc, 0xa3)?),
        message(3, Body::Secured),
    ];
    Ok(Messages::from(Vec::from_array(alloc, messages)?))
}

/// An attach, and a wrong response.
fn answers_wrongly(alloc: Global) -> Result<Messages, AllocError>
    ensures line { IfOk result IsLine }
    ensures short { IfOk result IsShort }
{
    let messages = [message(1, attach(1)), message(2, response(alloc, 0xff)?)];
    Ok(Messages::from(Vec::from_array(alloc, messages)?))
}

/// An attach in a forbidden area.
fn attaches_elsewhere(alloc: Global) -> Result<Messages, AllocError>
    ensures line { IfOk result IsLine }
    ensures short { IfOk result IsShort }
{
    let messages = [message(1, attach(9))];
    Ok(Messages::from(Vec::from_array(alloc, messages)?))
}

/// The messages of a device.
fn line_of(alloc: Global, device: u32) -> Result<Messages, AllocError>
    ensures line { IfOk result IsLine }
    ensures short { IfOk result IsShort }
{
    match device {
        1 => attaches(alloc),
        2 => answers_wrongly(alloc),
        3 => attaches_elsewhere(alloc),
        _ => Ok(Messages::new(alloc)),
    }
}

/// Adds the line of the next device.
fn add_line(alloc: Global, device: u32, book: &mut Book) -> Result<(), AllocError>
    requires { All IsShort book.old }
    ensures lines { OnOk result (length book.new ≡ length book.old + 1) }
    ensures short { OnOk result (All IsShort book.new) }
{
    book.push(line_of(alloc, device)?)
}

/// Adds the lines of so many devices to a book of none.
fn add_lines(alloc: Global, devices: u32, book: &mut Book) -> Result<(), AllocError>
    requires { book.old ≡ [] }
    ensures lines { OnOk result (length book.new ≡ devices) }
    ensures short { OnOk result (All IsShort book.new) }
{
    for index in 0..devices {
        add_line(alloc, index + 1, book)?;
    }
    Ok(())
}

/// The lines of the devices of a table.
pub(crate) fn book(alloc: Global, table: &SubsTable) -> Result<Book, AllocError>
    ensures lines { IfOk result (λ book. length book ≡ length table.now) }
    ensures short { IfOk result (All IsShort) }
{
    let mut book = Book::new(alloc);
    add_lines(alloc, table.len(), &mut book)?;
    Ok(book)
}

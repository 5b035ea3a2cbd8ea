//! The calls of two devices and their answers as octets: a line each with the device, the number of the call, its name and the octets.
ghost use Rattle.std.specs.Prelude.{◌^◌, ◌<◌, IfOk};
ghost use Rattle.device_types.specs.Subscriber.{IsSubscriber};
ghost use Rattle.dia_wire.specs.Calls.{IsServerAnswer};
ghost use Rattle.dia_wire.specs.Written.{IsDia};
ghost use Rattle.gtp2_wire.specs.Written.{IsGtp};

use crate::wire::Wire;
use device_types::{Answer, GwCall, Octets, SubCall, Subscriber, TryCopy};
use dia_wire::{Dia, ask_of, reply_of, write_dia};
use gtp2_wire::{Gtp, answer_of, call_of, write_gtp};
use std::alloc::Global;
use std::process::Abort;
use std::test::Fail;
use subs_table::read_row;

/// Which of the messages of a call a table has.
#[derive(Clone, Copy)]
pub(crate) enum Part {
    /// The call.
    Call,
    /// Its answer.
    Answer,
}

/// The devices of a protocol's tables.
#[derive(Clone, Copy)]
pub(crate) struct Devices {
    /// The protocol.
    pub(crate) wire: Wire,
    /// Device 1, as row 1 is written.
    pub(crate) first: &'static str,
    /// Device 2, as row 4096 is written.
    pub(crate) second: &'static str,
}

/// The call of GTPv2-C of that name.
fn gtp_call(row: &Subscriber, k: u64, word: &str) -> Result<Gtp, Fail>
    requires row { IsSubscriber row.now }
    requires number { k < 2 ^ 24 }
    ensures { IfOk result IsGtp }
{
    let message = match word {
        "create" => call_of(row, k, &GwCall::Create)?,
        "modify" => call_of(row, k, &GwCall::Modify(0xc0a8_0002, 2))?,
        "release" => call_of(row, k, &GwCall::Release)?,
        "second-modify" => call_of(row, k, &GwCall::SecondModify(0xc0a8_0004, 3))?,
        "second-create" if row.apn2.is_some() => call_of(row, k, &GwCall::SecondCreate)?,
        _ => call_of(row, k, &GwCall::Delete)?,
    };
    Ok(message)
}

/// The answer of GTPv2-C of that name.
fn gtp_answer(row: &Subscriber, k: u64, word: &str) -> Gtp
    requires { k < 2 ^ 24 }
    ensures { IsGtp result }
{
    match word {
        "created" => answer_of(row, k, &Answer::Created(0xc0a8_0001, 1, 0x0a2d_0001)),
        "modified" => answer_of(row, k, &Answer::Modified),
        "freed" => answer_of(row, k, &Answer::Freed),
        "second-created" => {
            answer_of(row, k, &Answer::SecondCreated(0xc0a8_0009, 2, 0x0a2d_8001))
        }
        "second-modified" => answer_of(row, k, &Answer::SecondModified),
        _ => answer_of(row, k, &Answer::Deleted),
    }
}

/// The octets of a call of GTPv2-C, or of its answer.
fn gtp_sent(alloc: Global, row: &Subscriber, k: u64, word: &str, part: Part) -> Result<Octets, Fail>
    requires { IsSubscriber row.now }
{
    if k >= 16_777_216 {
        return Err("no number of a call".into());
    }
    let message = match part {
        Part::Call => gtp_call(row, k, word)?,
        Part::Answer => gtp_answer(row, k, word),
    };
    Ok(write_gtp(alloc, &message)?)
}

/// The call of Diameter of that name.
fn dia_call(word: &str) -> SubCall {
    match word {
        "vectors" => SubCall::Vectors,
        "location" => SubCall::Location,
        _ => SubCall::Purge,
    }
}

/// What the row answers to the call of Diameter of that name.
fn dia_answer(row: &Subscriber, word: &str) -> Result<Answer, Fail>
    requires { IsSubscriber row.now }
    ensures { IfOk result IsServerAnswer }
{
    match word {
        "vectors" => Ok(Answer::Vectors(
            row.rand.copy()?,
            row.autn.copy()?,
            row.res.copy()?,
            row.key.copy()?,
        )),
        "location" => Ok(Answer::Located(row.ambr_dl, row.ambr_ul)),
        _ => Ok(Answer::Purged),
    }
}

/// The message of a call of Diameter, or of its answer.
fn dia_message(alloc: Global, row: &Subscriber, k: u64, word: &str, part: Part) -> Result<Dia, Fail>
    requires row { IsSubscriber row.now }
    requires number { k < 2 ^ 32 }
    ensures { IfOk result IsDia }
{
    match part {
        Part::Call => Ok(ask_of(alloc, row, k, &dia_call(word))?),
        Part::Answer => {
            let answer = dia_answer(row, word)?;
            Ok(reply_of(alloc, row, k, &answer)?)
        }
    }
}

/// The octets of a call of Diameter, or of its answer.
fn dia_sent(alloc: Global, row: &Subscriber, k: u64, word: &str, part: Part) -> Result<Octets, Fail>
    requires { IsSubscriber row.now }
{
    if k >= 4_294_967_296 {
        return Err("no number of a call".into());
    }
    let message = dia_message(alloc, row, k, word, part)?;
    Ok(write_dia(alloc, &message)?)
}

impl Devices {
    /// The row of a device.
    fn row_of(self, alloc: Global, device: &str) -> Result<Subscriber, Fail>
        ensures { IfOk result IsSubscriber }
    {
        if device == "1" {
            let row = read_row(alloc, self.first.as_bytes(), 1)?;
            return Ok(row);
        }
        let row = read_row(alloc, self.second.as_bytes(), 4096)?;
        Ok(row)
    }

    /// The octets of a device's call, or of its answer.
    fn sent(
        self,
        alloc: Global,
        device: &str,
        k: u64,
        word: &str,
        part: Part,
    ) -> Result<Octets, Fail> {
        let row = self.row_of(alloc, device)?;
        match self.wire {
            Wire::Gtp => gtp_sent(alloc, &row, k, word, part),
            Wire::Dia => dia_sent(alloc, &row, k, word, part),
        }
    }

    /// Writes a line again, with the octets.
    fn tell(self, alloc: Global, text: &mut String, line: &str, part: Part) -> Result<(), Fail> {
        let (device, rest) = line.split_once(' ').ok_or("no number")?;
        let (number, rest) = rest.split_once(' ').ok_or("no name")?;
        let (word, _) = rest.split_once(' ').ok_or("no octets")?;
        let octets = self.sent(alloc, device, number.parse::<u64>()?, word, part)?;
        let digits = hex::encode(alloc, octets.items())?;
        Ok(writeln!(text, "{device} {number} {word} {digits}")?)
    }

    /// Tells each line of a table of calls or of answers again.
    pub(crate) fn check(
        self,
        rt: &impl Abort,
        alloc: Global,
        table: &str,
        part: Part,
    ) -> Result<(), Fail> {
        let mut text = String::new(alloc);
        for line in table.lines() {
            self.tell(alloc, &mut text, line, part)?;
        }
        assert_eq!(rt; text.as_str(), table);
        Ok(())
    }
}

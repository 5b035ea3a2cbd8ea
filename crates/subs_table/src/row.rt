//! The lines of the subscriber table.
ghost use Rattle.std.specs.Prelude.{◌≡◌, Some, None, IfOk, ⊤};
ghost use Rattle.serde_json.specs.View.{view};
ghost use Rattle.echo_base.specs.declared.reason.Reason.TheVariants.{BadJson};
ghost use Rattle.echo_base.specs.Answer.{refused, Answers, IsAnswer};
ghost use Rattle.device_types.specs.Subscriber.{IsSubscriber};
ghost use Rattle.subs_table.specs.Row.{object_of, each_column, subscriber_at, row_of};

use crate::columns::{
    need_columns, read_address, read_areas, read_imsi, read_name, read_octets,
    read_optional_address, read_optional_name, read_whole,
};
use device_types::Subscriber;
use echo_base::{Bad, Column, Reason, refused};
use serde_json::Value;
use std::alloc::Global;

/// Reads a line as a JSON object.
#[tactic(auto, using(crate::proofs::ObjectLaws::object_read))]
fn read_object(alloc: Global, line: &[u8]) -> Result<Value, Bad>
    ensures { Answers (λ value. object_of line.now ≡ Some (view value))
        (λ e. (object_of line.now ≡ None) × (e ≡ refused BadJson)) ⊤ result }
{
    let bad_json = refused(Reason::BadJson);
    let value = match Value::from_slice(alloc, line) {
        Ok(value) => value,
        Err(error) => {
            if error.is_memory() {
                return Err(Bad::OutOfMemory);
            }
            return Err(Bad::Refused(bad_json));
        }
    };
    if !value.is_object() {
        return Err(Bad::Refused(bad_json));
    }
    Ok(value)
}

/// Reads each column of an object in turn.
#[tactic(auto, unfolding(crate::specs::Row::each_column))]
fn read_each_column(alloc: Global, row: &Value, number: u32) -> Result<Subscriber, Bad>
    ensures row { IsAnswer (each_column number (view row.now)) result }
    ensures range { IfOk result IsSubscriber }
    ensures numbered { IfOk result (λ row. row.number ≡ number) }
{
    let imsi = read_imsi(row, Column::Imsi)?;
    let tmsi = read_whole(row, Column::Tmsi, 0, 4_294_967_295)?;
    let rand = read_octets(alloc, row, Column::Rand, 16, 16)?;
    let autn = read_octets(alloc, row, Column::Autn, 16, 16)?;
    let res = read_octets(alloc, row, Column::Res, 4, 16)?;
    let key = read_octets(alloc, row, Column::Key, 32, 32)?;
    let apn = read_name(alloc, row, Column::Apn, 1, 30)?;
    let ip = read_address(row, Column::Ip)?;
    let sgw = read_address(row, Column::Sgw)?;
    let teid = read_whole(row, Column::Teid, 1, 4_000_000_000)?;
    let ambr_dl = read_whole(row, Column::AmbrDl, 0, 10_000_000_000)?;
    let ambr_ul = read_whole(row, Column::AmbrUl, 0, 10_000_000_000)?;
    let forbidden = read_areas(alloc, row, Column::Forbidden, 16)?;
    let apn2 = read_optional_name(alloc, row, Column::Apn2)?;
    let ip2 = read_optional_address(row, Column::Ip2)?;
    Ok(Subscriber {
        number,
        imsi,
        tmsi: tmsi as u32,
        rand,
        autn,
        res,
        key,
        apn,
        ip,
        sgw,
        teid: teid as u32,
        ambr_dl,
        ambr_ul,
        forbidden,
        apn2,
        ip2,
    })
}

/// Reads the columns of an object. One that is needed and missing is told before one that is bad.
#[tactic(auto, unfolding(crate::specs::Row::subscriber_at))]
fn read_columns(alloc: Global, row: &Value, number: u32) -> Result<Subscriber, Bad>
    ensures row { IsAnswer (subscriber_at number (view row.now)) result }
    ensures range { IfOk result IsSubscriber }
    ensures numbered { IfOk result (λ row. row.number ≡ number) }
{
    need_columns(row)?;
    read_each_column(alloc, row, number)
}

/// Reads a line of the table as the row of that number, from 1. A line that is not UTF-8, no JSON or no object is
/// BadJson. MissingColumn tells the first column that is missing, but for the two of a second connection, and where all are there,
/// BadColumn the first one of a wrong kind or range. The place of a refusal is 0. Other columns are passed over.
#[tactic(auto, unfolding(crate::specs::Row::row_of))]
pub fn read_row(alloc: Global, line: &[u8], number: u32) -> Result<Subscriber, Bad>
    ensures row { IsAnswer (row_of number line.now) result }
    ensures range { IfOk result IsSubscriber }
    ensures numbered { IfOk result (λ row. row.number ≡ number) }
{
    let row = read_object(alloc, line)?;
    read_columns(alloc, &row, number)
}

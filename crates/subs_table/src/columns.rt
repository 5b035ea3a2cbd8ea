//! The columns of a row.
ghost use Rattle.std.specs.Prelude.{◌≡◌, ◌^◌, ◌<◌, ◌≤◌, length, find, All, IfSome, IfOk, option_map, option_and_then};
ghost use Rattle.std.specs.List.{AllPass, list_all};
ghost use Rattle.std.specs.Char.{is_ascii_digit};
ghost use Rattle.std.specs.Int.{w32, from_be_bytes};
ghost use Rattle.echo_base.specs.declared.reason.Reason.TheVariants.{BadColumn};
ghost use Rattle.echo_base.specs.Answer.{refused, IsAnswer};
ghost use Rattle.serde_json.specs.View.{view, items_view};
ghost use Rattle.serde_json.specs.Find.{get, as_str};
ghost use Rattle.device_types.specs.Octets.{AreOctets};
ghost use Rattle.device_types.specs.Subscriber.{is_letter_or_digit, IsName};
ghost use Rattle.subs_table.specs.Kinds.{whole, number_of, decimal, octets_within, hexadecimal, address, name, wholes_of, wholes};
ghost use Rattle.subs_table.specs.Row.{columns, is_missing, all_columns, key_of, column_at, optional_at};

use device_types::{Areas, Octets};
use echo_base::{Bad, Column, Reason, Refusal, decode_hex, refused};
use serde_json::Value;
use std::alloc::{AllocError, Global};

/// The columns that a row needs, in their order.
const COLUMNS: [Column; 13] = [
    Column::Imsi,
    Column::Tmsi,
    Column::Rand,
    Column::Autn,
    Column::Res,
    Column::Key,
    Column::Apn,
    Column::Ip,
    Column::Sgw,
    Column::Teid,
    Column::AmbrDl,
    Column::AmbrUl,
    Column::Forbidden,
];

/// The key of a column.
#[tactic(auto, unfolding(crate::specs::Row::key_of))]
fn key(column: Column) -> &'static str
    ensures { result.now ≡ key_of column }
{
    match column {
        Column::Imsi => "imsi",
        Column::Tmsi => "tmsi",
        Column::Rand => "rand",
        Column::Autn => "autn",
        Column::Res => "res",
        Column::Key => "key",
        Column::Apn => "apn",
        Column::Ip => "ip",
        Column::Sgw => "sgw",
        Column::Teid => "teid",
        Column::AmbrDl => "ambr_dl",
        Column::AmbrUl => "ambr_ul",
        Column::Forbidden => "forbidden",
        Column::Apn2 => "apn2",
        Column::Ip2 => "ip2",
    }
}

/// Is the column not there?
fn is_missing(row: &Value, column: Column) -> bool
    ensures { result ≡ is_missing column (view row.now) }
{
    row.get(key(column)).is_none()
}

/// The first column that is missing.
fn first_missing(row: &Value) -> Option<Column>
    ensures { result ≡ find (λ column. is_missing column (view row.now)) columns }
{
    COLUMNS
        .iter()
        .copied()
        .find(|column| is_missing(row, *column))
}

/// Refuses a row for the first column that is missing.
#[tactic(auto, unfolding(crate::specs::Row::all_columns))]
pub(crate) fn need_columns(row: &Value) -> Result<(), Refusal>
    ensures { result ≡ all_columns (view row.now) }
{
    match first_missing(row) {
        Some(column) => Err(refused(Reason::MissingColumn(column))),
        None => Ok(()),
    }
}

/// The refusal of a column of a wrong kind or range.
fn bad(column: Column) -> Refusal
    ensures { result ≡ refused (BadColumn column) }
{
    refused(Reason::BadColumn(column))
}

/// The text of a column.
fn text(row: &Value, column: Column) -> Option<&str>
    ensures { option_map (λ text. text.now) result
        ≡ option_and_then as_str (get (key_of column) (view row.now)) }
{
    row.get(key(column)).and_then(Value::as_str)
}

/// Reads a column as a whole number from `low` to `high`.
#[tactic(auto, unfolding(crate::specs::Row::column_at, crate::specs::Kinds::whole))]
pub(crate) fn read_whole(row: &Value, column: Column, low: u64, high: u64) -> Result<u64, Refusal>
    ensures read { result ≡ column_at column (whole low high) (view row.now) }
    ensures least { IfOk result (λ n. low ≤ n) }
    ensures most { IfOk result (λ n. n ≤ high) }
{
    let Some(number) = row.get(key(column)).and_then(Value::as_u64) else {
        return Err(bad(column));
    };
    if number < low || high < number {
        return Err(bad(column));
    }
    Ok(number)
}

/// Has the text only decimal digits?
fn is_decimal(text: &str) -> bool
    ensures { result ≡ list_all is_ascii_digit text.now }
{
    text.as_bytes().iter().all(|c| c.is_ascii_digit())
}

/// The number of a text of 15 decimal digits, as an IMSI has (3GPP TS 23.003, 2.2); no other text is one.
#[tactic(auto, unfolding(crate::specs::Kinds::number_of))]
pub fn fifteen_digits(text: &str) -> Option<u64>
    ensures number { result ≡ number_of 15 text.now }
    ensures range { IfSome result (λ n. n < 10 ^ 15) }
{
    if text.len() != 15 || !is_decimal(text) {
        return None;
    }
    text.parse().ok()
}

/// Reads a column as the number of a text of 15 decimal digits.
#[tactic(auto, unfolding(crate::specs::Row::column_at, crate::specs::Kinds::decimal))]
pub(crate) fn read_imsi(row: &Value, column: Column) -> Result<u64, Refusal>
    ensures read { result ≡ column_at column (decimal 15) (view row.now) }
    ensures range { IfOk result (λ n. n < 10 ^ 15) }
{
    text(row, column)
        .and_then(fifteen_digits)
        .ok_or(bad(column))
}

/// Has the text only lower-case letters and digits?
fn is_name(text: &str) -> bool
    ensures { result ≡ list_all is_letter_or_digit text.now }
{
    text.as_bytes()
        .iter()
        .all(|c| c.is_ascii_lowercase() || c.is_ascii_digit())
}

/// Reads a column as a text of `low` to `high` lower-case letters and digits.
#[tactic(auto, unfolding(crate::specs::Row::column_at, crate::specs::Kinds::name))]
pub(crate) fn read_name(
    alloc: Global,
    row: &Value,
    column: Column,
    low: usize,
    high: usize,
) -> Result<Octets, Bad>
    ensures read { IsAnswer (column_at column (name low high) (view row.now)) result }
    ensures least { IfOk result (λ text. low ≤ length text) }
    ensures most { IfOk result (λ text. length text ≤ high) }
    ensures characters { IfOk result (λ text. AllPass is_letter_or_digit text) }
{
    let Some(text) = text(row, column) else {
        return Err(bad(column).into());
    };
    if text.len() < low || high < text.len() || !is_name(text) {
        return Err(bad(column).into());
    }
    Ok(Octets::from(Vec::from_slice(alloc, text.as_bytes())?))
}

/// Reads a column, where it is there, as an access point name of one label (3GPP TS 23.003, 9.1).
#[tactic(auto, unfolding(crate::specs::Row::optional_at))]
pub(crate) fn read_optional_name(
    alloc: Global,
    row: &Value,
    column: Column,
) -> Result<Option<Octets>, Bad>
    ensures read { IsAnswer (optional_at column (name 1 30) (view row.now)) result }
    ensures range { IfOk result (λ found. IfSome found IsName) }
{
    if is_missing(row, column) {
        return Ok(None);
    }
    Ok(Some(read_name(alloc, row, column, 1, 30)?))
}

/// Reads a column as `low` to `high` octets of hexadecimal digits in either case.
#[tactic(auto, unfolding(crate::specs::Row::column_at, crate::specs::Kinds::hexadecimal, crate::specs::Kinds::octets_of))]
pub(crate) fn read_octets(
    alloc: Global,
    row: &Value,
    column: Column,
    low: usize,
    high: usize,
) -> Result<Octets, Bad>
    ensures read { IsAnswer (column_at column (hexadecimal low high) (view row.now)) result }
    ensures least { IfOk result (λ octets. low ≤ length octets) }
    ensures most { IfOk result (λ octets. length octets ≤ high) }
    ensures octets { IfOk result AreOctets }
{
    let Some(text) = text(row, column) else {
        return Err(bad(column).into());
    };
    let Some(octets) = decode_hex(alloc, text.as_bytes())? else {
        return Err(bad(column).into());
    };
    if octets.len() < low || high < octets.len() {
        return Err(bad(column).into());
    }
    let octets = Octets::from(octets);
    // That each is below 256 is a clause of `octets`.
    let _count = octets.octets().len();
    Ok(octets)
}

/// The number of a text of eight hexadecimal digits, the first of them highest.
#[tactic(auto, using(crate::proofs::TextLaws::four_octets))]
fn eight_digits(text: &str) -> Option<u32>
    ensures { result ≡ option_map (from_be_bytes w32) (octets_within 4 4 text.now) }
{
    let mut octets = [0; 4];
    match hex::decode_to_slice(text, &mut octets) {
        Ok(()) => Some(u32::from_be_bytes(octets)),
        Err(_) => None,
    }
}

/// Reads a column as an IPv4 address of eight hexadecimal digits.
#[tactic(auto, unfolding(crate::specs::Row::column_at, crate::specs::Kinds::address, crate::specs::Kinds::hexadecimal))]
pub(crate) fn read_address(row: &Value, column: Column) -> Result<u32, Refusal>
    ensures { result ≡ column_at column address (view row.now) }
{
    text(row, column).and_then(eight_digits).ok_or(bad(column))
}

/// Reads a column, where it is there, as an IPv4 address of eight hexadecimal digits.
#[tactic(auto, unfolding(crate::specs::Row::optional_at))]
pub(crate) fn read_optional_address(row: &Value, column: Column) -> Result<Option<u32>, Refusal>
    ensures { result ≡ optional_at column address (view row.now) }
{
    if is_missing(row, column) {
        return Ok(None);
    }
    Ok(Some(read_address(row, column)?))
}

/// Reads whole numbers of 16 bits.
#[tactic(auto, unfolding(crate::specs::Kinds::wholes_of, crate::specs::Kinds::whole))]
fn read_numbers(alloc: Global, values: &[Value]) -> Result<Option<Areas>, AllocError>
    ensures { IfOk result (λ areas. areas ≡ wholes_of 65535 (items_view values.now)) }
{
    let mut areas = Areas::new(alloc);
    for value in values {
        let Some(number) = value.as_u64() else {
            return Ok(None);
        };
        let Ok(area) = u16::try_from(number) else {
            return Ok(None);
        };
        areas.push(area)?;
    }
    Ok(Some(areas))
}

/// Reads a column as a list of at most `most` tracking area codes.
#[tactic(auto, unfolding(crate::specs::Row::column_at, crate::specs::Kinds::wholes))]
pub(crate) fn read_areas(
    alloc: Global,
    row: &Value,
    column: Column,
    most: usize,
) -> Result<Areas, Bad>
    ensures read { IsAnswer (column_at column (wholes most 65535) (view row.now)) result }
    ensures most { IfOk result (λ areas. length areas ≤ most) }
    ensures range { IfOk result (λ areas. All (λ area. area < 65536) areas) }
{
    let Some(values) = row.get(key(column)).and_then(Value::as_array) else {
        return Err(bad(column).into());
    };
    let Some(areas) = read_numbers(alloc, values)? else {
        return Err(bad(column).into());
    };
    if most < areas.items().len() {
        return Err(bad(column).into());
    }
    Ok(areas)
}

//! Tables of information elements.

ghost use Rattle.std.specs.Prelude.{◌≡◌, ◌≤◌, ◌<◌, IfSome, length, take};
ghost use Rattle.protocol_ies.specs.Tables.{reject, ignore, optional, optional_ignore, place_of};

use crate::criticality::Criticality;

/// An information element that a message has.
#[derive(Clone, Copy)]
pub struct IeRow {
    /// Its id.
    pub id: u16,
    /// Its criticality.
    pub criticality: Criticality,
    /// Whether each message of the kind must have it.
    pub needed: bool,
}

/// The information elements of a kind of message.
#[derive(Clone, Copy)]
pub struct IeTable {
    /// The elements in order, and behind them rows of zeros.
    pub rows: [IeRow; 6],
    /// How many elements there are.
    pub len: usize,
}

/// A needed element, whose criticality is reject.
#[inline(always)]
pub const fn reject(id: u16) -> IeRow
    ensures { result ≡ reject id }
{
    IeRow {
        id,
        criticality: Criticality::Reject,
        needed: true,
    }
}

/// A needed element, whose criticality is ignore.
#[inline(always)]
pub const fn ignore(id: u16) -> IeRow
    ensures { result ≡ ignore id }
{
    IeRow {
        id,
        criticality: Criticality::Ignore,
        needed: true,
    }
}

/// An element that may be absent, whose criticality is reject.
#[inline(always)]
pub const fn optional(id: u16) -> IeRow
    ensures { result ≡ optional id }
{
    IeRow {
        id,
        criticality: Criticality::Reject,
        needed: false,
    }
}

/// An element that may be absent, whose criticality is ignore.
#[inline(always)]
pub const fn optional_ignore(id: u16) -> IeRow
    ensures { result ≡ optional_ignore id }
{
    IeRow {
        criticality: Criticality::Ignore,
        ..optional(id)
    }
}

/// The row behind the last element.
pub const NO_ROW: IeRow = IeRow {
    id: 0,
    criticality: Criticality::Reject,
    needed: false,
};

/// The table of two to six rows.
#[macro_export]
macro_rules! table {
    ($a:expr, $b:expr) => {
        $crate::IeTable { rows: [$a, $b, $crate::NO_ROW, $crate::NO_ROW, $crate::NO_ROW, $crate::NO_ROW], len: 2 }
    };
    ($a:expr, $b:expr, $c:expr) => {
        $crate::IeTable { rows: [$a, $b, $c, $crate::NO_ROW, $crate::NO_ROW, $crate::NO_ROW], len: 3 }
    };
    ($a:expr, $b:expr, $c:expr, $d:expr) => {
        $crate::IeTable { rows: [$a, $b, $c, $d, $crate::NO_ROW, $crate::NO_ROW], len: 4 }
    };
    ($a:expr, $b:expr, $c:expr, $d:expr, $e:expr) => {
        $crate::IeTable { rows: [$a, $b, $c, $d, $e, $crate::NO_ROW], len: 5 }
    };
    ($a:expr, $b:expr, $c:expr, $d:expr, $e:expr, $f:expr) => {
        $crate::IeTable { rows: [$a, $b, $c, $d, $e, $f], len: 6 }
    };
}

/// The rows of a table.
#[inline(always)]
pub fn rows(table: &IeTable) -> &[IeRow]
    requires { table.now.len ≤ 6 }
    ensures { result.now ≡ take table.now.len table.now.rows }
{
    &table.rows[..table.len]
}

/// The place of the row with that id.
#[inline(always)]
pub fn place_of(rows: &[IeRow], id: u16) -> Option<usize>
    ensures place { result ≡ place_of rows.now id }
    ensures within { IfSome result (λ k. k < length rows.now) }
{
    rows.iter().position(|row| row.id == id)
}

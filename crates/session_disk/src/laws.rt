//! A law of the definitions, as clauses of a function that does nothing.
ghost use Rattle.std.specs.Prelude.{◌≡◌, ℕ, List, length};
ghost use Rattle.disk_log.specs.Record.{LogRecord};
ghost use Rattle.session_row.specs.Row.{RowState};
ghost use Rattle.session_store.specs.Charter.{CharterState};
ghost use Rattle.session_store.specs.Rows.{IsDevice, journal_of, AreLawful};
ghost use Rattle.session_disk.specs.Fits.{AllFit, AreRowsOf, IsLogOf};

use crate::maker::Maker;
use session_store::RowLaw;

/// A log of lawful rows fits what a maker of their law makes, and the rows that it is opened to have the same journals. So what a
/// crash leaves of an open store opens again to the journals before a commit, or with it.
pub fn opens_again<L: RowLaw, M: Maker<L>>()
    ensures fits { (charter : CharterState) (rows : List RowState) (records : List LogRecord) → AreLawful (L.follows charter) rows → IsLogOf rows records → AllFit (length rows) (M.made charter) records }
    ensures journals { (charter : CharterState) (rows opened : List RowState) (records : List LogRecord) → AreLawful (L.follows charter) rows → IsLogOf rows records → AreRowsOf (length rows) (M.made charter) records opened
        → (d : ℕ) → IsDevice (length rows) d → journal_of opened d ≡ journal_of rows d }
{}

//! Pieces that are written whole or not at all.

ghost use Rattle.std.specs.Prelude.{◌≡◌, OnOk, OnErr};
ghost use Rattle.std.specs.Fn.{FnOnceTakesAtMut, FnOnceReturnsAtMut};
ghost use Rattle.aper_fields.specs.Kept.{Keeps};

use crate::writer::BitWriter;
use echo_base::OutOfMemory;

/// Writes several pieces; where memory runs out for one of them, nothing is written.
pub fn all_or_nothing<T, F: FnOnce(&mut BitWriter) -> Result<T, OutOfMemory>>(
    w: &mut BitWriter,
    write: F,
) -> Result<T, OutOfMemory>
    requires may { FnOnceTakesAtMut F.FnOnce write w.old }
    requires kept { (result : _) (new : _) → FnOnceReturnsAtMut F.FnOnce write w.old result new → OnErr result (Keeps w.old new) }
    ensures ok { OnOk result (FnOnceReturnsAtMut F.FnOnce write w.old result w.new) }
    ensures given { OnErr result ((new : _) × FnOnceReturnsAtMut F.FnOnce write w.old result new) }
    ensures err { OnErr result (w.new ≡ w.old) }
{
    let mark = w.mark();
    match write(w) {
        Ok(value) => Ok(value),
        Err(error) => {
            w.back_to(mark);
            Err(error)
        }
    }
}

//! The rows of a log.
ghost use Rattle.std.specs.Prelude.{◌≡◌, ◌≤◌, ◌*◌, ℕ, true, false, length, replicate, IfOk, OnOk, IsErrOf};
ghost use Rattle.std.specs.Bool.{Decides};
ghost use Rattle.device_types.specs.Journal.{session_of};
ghost use Rattle.disk_log.specs.Log.{log_of, EndsAt};
ghost use Rattle.session_form.specs.Form.{IsFormOf};
ghost use Rattle.session_store.specs.Rows.{opening_row, IsDevice, AreLawful, journal_of};
ghost use Rattle.session_disk.specs.Fits.{AreRowsOf, IsLogOf, IsForeign};
ghost use Rattle.session_disk.specs.Replay.{IsNext, Takes};
ghost use Rattle.session_disk.specs.Stored.{entry_count};
ghost use Rattle.session_disk.specs.declared.fault.OpenCause.TheVariants as causes;

use crate::fault::OpenCause;
use crate::maker::Maker;
use device_types::DeviceId;
use disk_log::Record;
use echo_base::Bad;
use session_form::{read_session, write_session};
use session_store::{RowLaw, Store};
use std::alloc::AllocError;

/// Has the row of a device the session of a record, in whichever form? A row keeps it in form 2, in which what is read is written
/// again. It fails for want of memory alone.
fn has_session<L: RowLaw>(store: &Store<L>, d: DeviceId, next: &Record) -> Result<bool, AllocError>
    requires { IsDevice (length store.now.rows) d.0 }
    ensures { IfOk result (λ has. Decides has (IsFormOf next.now.session (session_of (journal_of store.now.rows d.0)))) }
{
    let row = store.row(d);
    let alloc = row.session()?.alloc();
    match read_session(alloc, next.session()) {
        Ok(session) => Ok(write_session(alloc, &session)?.octets() == row.octets()),
        Err(Bad::Refused(_)) => Ok(false),
        Err(Bad::OutOfMemory) => Err(AllocError),
    }
}

/// Puts the entry of a record into the store, where the record is the next one of its device; tells whether it is. It fails for
/// want of memory alone.
fn take_record<L: RowLaw, M: Maker<L>>(
    store: &mut Store<L>,
    devices: u32,
    maker: &M,
    next: &Record,
) -> Result<bool, AllocError>
    requires charter { M.charter maker.now ≡ store.old.charter }
    requires count { length store.old.rows ≡ devices }
    requires lawful { AreLawful (L.follows store.old.charter) store.old.rows }
    ensures next { IfOk result (λ fits. fits ≡ true → Takes (M.made store.old.charter) store.old.rows store.new.rows next.now) }
    ensures other { IfOk result (λ fits. fits ≡ false → IsNext (M.made store.old.charter) store.old.rows next.now → ⊥) }
    ensures charter { store.new.charter ≡ store.old.charter }
    ensures lawful { OnOk result (AreLawful (L.follows store.new.charter) store.new.rows) }
{
    if next.device() == 0 || next.device() > devices {
        return Ok(false);
    }
    let d = DeviceId(next.device());
    let version = store.row(d).version();
    if next.version() == 0 || next.version() - 1 != version {
        return Ok(false);
    }
    let Some(entry) = maker.entry(d, version)? else {
        return Ok(false);
    };
    let Ok(_) = store.commit(d, version, entry) else {
        return Err(AllocError);
    };
    has_session(store, d, next)
}

/// Puts the entries of a log into a store that is empty. Tells the place of its last gate, which is closed.
pub(crate) fn replay<L: RowLaw, M: Maker<L>>(
    octets: &[u8],
    store: &mut Store<L>,
    devices: u32,
    maker: &M,
) -> Result<u64, OpenCause>
    requires charter { M.charter maker.now ≡ store.old.charter }
    requires empty { store.old.rows ≡ replicate devices opening_row }
    requires some { 1 ≤ length octets.now }
    ensures ends { IfOk result (λ gate. EndsAt gate octets.now) }
    ensures rows { OnOk result (AreRowsOf devices (M.made store.old.charter) (log_of octets.now) store.new.rows) }
    ensures log { OnOk result (IsLogOf store.new.rows (log_of octets.now)) }
    ensures few { IfOk result (λ gate. gate ≤ 256 * entry_count store.new.rows) }
    ensures foreign { (at : ℕ) → IsErrOf result (causes.Foreign at) → IsForeign devices (M.made store.old.charter) octets.now at }
    ensures exact { OnOk result ((at : ℕ) → IsForeign devices (M.made store.old.charter) octets.now at → ⊥) }
    ensures no_fault { IsErrOf result causes.DiskFault → ⊥ }
    ensures charter { store.new.charter ≡ store.old.charter }
{
    let mut at = 0;
    while octets[at] == 1 {
        let foreign = OpenCause::Foreign { at: at as u64 };
        let Some(next) = Record::first(&octets[at + 1..]) else {
            return Err(foreign);
        };
        if !take_record(store, devices, maker, &next)? {
            return Err(foreign);
        }
        at += 1 + next.size();
    }
    Ok(at as u64)
}

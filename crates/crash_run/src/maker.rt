//! The maker of the entries of the machines alone.
ghost use Rattle.std.specs.Prelude.{◌≡◌, ◌-◌, length, option_map, slice_get, All, IfOk};
ghost use Rattle.std.specs.Arc.{arc_value};
ghost use Rattle.session_store.specs.Charter.{IsCharter, IsShort, alone_in};
ghost use Rattle.crash_run.specs.Made.{entry_at, alone_each};
ghost use Rattle.crash_run.specs.Text.{counts_of};

use crate::course::entries_of;
use device_types::{Book, DeviceId, Entry, ListOf, TryCopy};
use session_disk::Maker;
use session_store::{EchoLaw, RowLaw};
use std::alloc::{AllocError, Global};
use std::marker::Model;
use subs_table::SubsTable;

/// Makes the entries that the law of the machine alone allows. It holds all of them, under the charter of its law, which is what
/// contracts see.
#[derive(Drop)]
pub struct AloneMaker {
    law: EchoLaw,
    entries: Vec<ListOf<Entry>>,
}

impl Model for AloneMaker {
    ghost use Rattle.std.specs.Arc.{arc_value};
    ghost use Rattle.session_store.specs.Charter.{CharterState};
    ghost use Rattle.crash_run.specs.Made.{AreMade};

    ghost Value = { CharterState };

    ghost view = { λ maker. arc_value maker.law.charter };

    ghost invariant = { λ maker. AreMade (arc_value maker.law.charter) maker.entries.items };
}

/// The entries of each device of a table that is alone with its messages of a book.
fn entries_of_each(
    alloc: Global,
    table: &SubsTable,
    book: &Book,
) -> Result<Vec<ListOf<Entry>>, AllocError>
    requires lines { length book.now ≡ length table.now }
    requires short { All IsShort book.now }
    ensures { IfOk result (λ entries. entries.items ≡ alone_each table.now book.now) }
{
    let mut entries = Vec::new(alloc);
    for index in 0..table.len() {
        let row = table.row(DeviceId(index + 1));
        let messages = &book.items()[index as usize];
        entries.push(entries_of(row, messages.items())?)?;
    }
    Ok(entries)
}

impl AloneMaker {
    /// The maker under a table and a book. It fails for want of memory alone.
    pub fn new(alloc: Global, table: &SubsTable, book: &Book) -> Result<AloneMaker, AllocError>
        requires lines { length book.now ≡ length table.now }
        requires short { All IsShort book.now }
        ensures { IfOk result (λ maker. maker ≡ record { rows = table.now; lines = book.now }) }
    {
        let law = EchoLaw::new(alloc, table, book)?;
        let entries = entries_of_each(alloc, table, book)?;
        Ok(AloneMaker { law, entries })
    }

    /// The law whose entries it makes.
    pub fn law(&self) -> Result<EchoLaw, AllocError>
        ensures { IfOk result (λ law. arc_value law.charter ≡ self.now) }
    {
        self.law.copy()
    }

    /// How many devices there are.
    pub fn devices(&self) -> u32
        ensures count { result ≡ length self.now.rows }
        ensures charter { IsCharter self.now }
    {
        self.law.charter().rows().len() as u32
    }

    /// The entries that are held of a device, where it is one.
    fn held(&self, d: DeviceId) -> Option<&ListOf<Entry>>
        ensures { option_map (λ e. e.now) result ≡ slice_get (alone_each self.now.rows self.now.lines) (d.0 - 1) }
    {
        self.entries.get(d.0.saturating_sub(1) as usize)
    }

    /// The entries of a device.
    fn entries(&self, d: DeviceId) -> &[Entry]
        ensures { result.now ≡ alone_in self.now d.0 }
    {
        match self.held(d) {
            Some(entries) => entries.items(),
            None => &[],
        }
    }

    /// How many entries a device has.
    pub fn count(&self, d: DeviceId) -> u64
        ensures { result ≡ length (alone_in self.now d.0) }
    {
        self.entries(d).len() as u64
    }

    /// How many entries each device has.
    pub fn counts(&self, alloc: Global) -> Result<Vec<u64>, AllocError>
        ensures { IfOk result (λ counts. counts.items ≡ counts_of self.now.rows self.now.lines) }
    {
        let mut counts = Vec::new(alloc);
        for index in 0..self.devices() {
            counts.push(self.count(DeviceId(index + 1)))?;
        }
        Ok(counts)
    }
}

impl Maker<EchoLaw> for AloneMaker {
    ghost charter = { λ maker. maker };

    ghost made = { entry_at };

    ghost only = { λ charter d journal entry lawful. (λ h. h, λ h. h) };

    fn entry(&self, d: DeviceId, version: u64) -> Result<Option<Entry>, AllocError> {
        match self.entries(d).get(version as usize) {
            Some(entry) => Ok(Some(entry.copy()?)),
            None => Ok(None),
        }
    }
}

//! The subscriber table.
ghost use Rattle.std.specs.Prelude.{◌≡◌, ◌≢◌, ◌≤◌, ◌+◌, ◌-◌, ◌↔◌, [], ◌∷◌, ◌++◌, length, map, All, Some, None, IfSome, IfOk, OnOk, OnErr, slice_get};
ghost use Rattle.device_types.specs.declared.subscriber.DeviceId.{DeviceId};
ghost use Rattle.device_types.specs.Subscriber.{IsSubscriber};
ghost use Rattle.std.specs.List.Sorted.{IsStrictlyIncreasing, IsPermutation};
ghost use Rattle.subs_table.specs.Order.{devices_by_imsi, imsi_at};
ghost use Rattle.echo_base.specs.Answer.{IsAnswer};
ghost use Rattle.subs_table.specs.Table.{IsTable, imsi_of, tmsi_of, device_of, RowHas, device_by, add_refusal, add_answer};

use device_types::{DeviceId, Subscriber};
use echo_base::{Bad, Reason, refused};
use std::alloc::{AllocError, Global};
use std::collections::BTreeMap;
use std::marker::Model;

/// As many rows as a table may have.
const MOST_ROWS: usize = 4096;

/// The subscriber table, which contracts see as its rows in the order of their numbers. A look-up goes by an ordered map,
/// in the logarithm of the rows; no clause speaks of time.
#[derive(Debug, Drop)]
pub struct SubsTable {
    rows: Vec<Subscriber>,
    imsis: BTreeMap<u64, DeviceId>,
    tmsis: BTreeMap<u32, DeviceId>,
}

impl Model for SubsTable {
    ghost use Rattle.std.specs.Prelude.{List};
    ghost use Rattle.device_types.specs.declared.subscriber.Subscriber.{Subscriber};
    ghost use Rattle.subs_table.specs.Table.{imsi_of, tmsi_of};
    ghost use Rattle.subs_table.specs.Index.{IsIndexed};

    ghost Value = { List Subscriber };

    ghost view = { λ table. table.rows.items };

    ghost invariant = { λ table. IsIndexed table.rows.items table.imsis table.tmsis };
}

impl SubsTable {
    /// The table with no rows. It takes no memory.
    pub fn new(alloc: Global) -> SubsTable
        ensures { result ≡ [] }
    {
        SubsTable {
            rows: Vec::new(alloc),
            imsis: BTreeMap::new(alloc),
            tmsis: BTreeMap::new(alloc),
        }
    }

    /// Why the row is not added.
    #[tactic(auto, using(crate::proofs::DeviceLaws::has_device), unfolding(crate::specs::Table::add_refusal))]
    fn refusal(&self, row: &Subscriber) -> Option<Reason>
        ensures { result ≡ add_refusal self.now row.now }
    {
        if self.imsis.contains_key(&row.imsi) {
            return Some(Reason::RepeatedImsi);
        }
        if self.tmsis.contains_key(&row.tmsi) {
            return Some(Reason::RepeatedTmsi);
        }
        if self.rows.len() >= MOST_ROWS {
            return Some(Reason::TableFull);
        }
        None
    }

    /// Adds a row at the end. It is refused with RepeatedImsi or RepeatedTmsi where an earlier row has its IMSI or its
    /// M-TMSI, and with TableFull where there are 4,096 rows; in this order, and the place is 0. After an error the table
    /// is as before, and the row is dropped.
    #[tactic(auto, unfolding(crate::specs::Table::add_answer))]
    pub fn add(&mut self, row: Subscriber) -> Result<DeviceId, Bad>
        requires number { row.number ≡ length self.old + 1 }
        requires ranges { IsSubscriber row }
        ensures answer { IsAnswer (add_answer self.old row) result }
        ensures added { OnOk result (self.new ≡ self.old ++ row ∷ []) }
        ensures err { OnErr result (self.new ≡ self.old) }
        ensures table { IsTable self.new }
    {
        if let Some(reason) = self.refusal(&row) {
            return Err(refused(reason).into());
        }
        let device = DeviceId(row.number);
        self.rows.reserve(1)?;
        self.imsis.insert(row.imsi, device)?;
        if self.tmsis.insert(row.tmsi, device).is_err() {
            let _ = self.imsis.remove(&row.imsi);
            return Err(Bad::OutOfMemory);
        }
        self.rows.push(row).unwrap();
        Ok(device)
    }

    /// How many rows there are.
    pub fn len(&self) -> u32
        ensures rows { result ≡ length self.now }
        ensures table { IsTable self.now }
    {
        self.rows.len() as u32
    }

    /// The rows in the order of their numbers.
    pub fn rows(&self) -> &[Subscriber]
        ensures rows { result.now ≡ self.now }
        ensures table { IsTable self.now }
    {
        let rows: &[Subscriber] = &self.rows;
        rows
    }

    /// The devices in the order of their IMSIs, in one walk along an ordered map.
    pub fn in_imsi_order(&self, alloc: Global) -> Result<Vec<DeviceId>, AllocError>
        ensures devices { IfOk result (λ devices. devices.items ≡ devices_by_imsi self.now) }
        ensures increasing { IfOk result (λ devices. IsStrictlyIncreasing (map (imsi_at self.now) devices.items)) }
        ensures each_once { IfOk result (λ devices. IsPermutation (map device_of self.now) devices.items) }
        ensures within { IfOk result (λ devices. All (λ d. (1 ≤ d.0) × (d.0 ≤ length self.now)) devices.items) }
    {
        self.imsis.values().copied().collect(alloc)
    }

    /// Does nothing: it tells a proof what holds of every table.
    pub fn recall(&self)
        ensures { IsTable self.now }
    {
        let _ = &self.rows;
    }

    /// The row of a device.
    pub fn row(&self, d: DeviceId) -> &Subscriber
        requires least { 1 ≤ d.0 }
        requires most { d.0 ≤ length self.now }
        ensures row { slice_get self.now (d.0 - 1) ≡ Some result.now }
        ensures number { result.now.number ≡ d.0 }
        ensures range { IsSubscriber result.now }
        ensures table { IsTable self.now }
    {
        &self.rows[d.index()]
    }

    /// The device with that IMSI.
    pub fn by_imsi(&self, imsi: u64) -> Option<DeviceId>
        ensures device { result ≡ device_by imsi_of self.now imsi }
        ensures found { (d : DeviceId) → (result ≡ Some d) ↔ RowHas self.now d (λ row. row.imsi ≡ imsi) }
        ensures none { (result ≡ None) ↔ All (λ row. row.imsi ≢ imsi) self.now }
        ensures within { IfSome result (λ d. (1 ≤ d.0) × (d.0 ≤ length self.now)) }
    {
        self.imsis.get(&imsi).copied()
    }

    /// The device with that M-TMSI.
    pub fn by_tmsi(&self, tmsi: u32) -> Option<DeviceId>
        ensures device { result ≡ device_by tmsi_of self.now tmsi }
        ensures found { (d : DeviceId) → (result ≡ Some d) ↔ RowHas self.now d (λ row. row.tmsi ≡ tmsi) }
        ensures none { (result ≡ None) ↔ All (λ row. row.tmsi ≢ tmsi) self.now }
        ensures within { IfSome result (λ d. (1 ≤ d.0) × (d.0 ≤ length self.now)) }
    {
        self.tmsis.get(&tmsi).copied()
    }
}

//! Lists of values.
ghost use Rattle.std.specs.Prelude.{◌≡◌, [], ◌∷◌, ◌++◌, IfOk, OnOk, OnErr};
ghost use Rattle.device_types.specs.Octets.{AreOctets};

use crate::try_copy::TryCopy;
use std::alloc::{AllocError, Global};
use std::marker::Model;

/// A list of values, which contracts see as a list.
#[derive(Debug, Drop)]
pub struct ListOf<T> {
    items: Vec<T>,
}

impl<T> Model for ListOf<T> {
    ghost use Rattle.std.specs.Prelude.{List};

    ghost Value = { List T };

    ghost view = { λ list. list.items.items };
}

impl<T> ListOf<T> {
    /// The empty list. It takes no memory.
    pub fn new(alloc: Global) -> ListOf<T>
        ensures { result ≡ [] }
    {
        ListOf {
            items: Vec::new(alloc),
        }
    }

    /// The allocator that holds the list.
    pub fn alloc(&self) -> Global {
        *self.items.allocator()
    }

    /// The values in order.
    pub fn items(&self) -> &[T]
        ensures { result.now ≡ self.now }
    {
        let items: &[T] = &self.items;
        items
    }

    /// The vector of the values, in order. It takes no memory.
    pub fn into_items(self) -> Vec<T>
        ensures { result.items ≡ self }
    {
        let ListOf { items } = self;
        items
    }
}

impl<T: Drop> ListOf<T> {
    /// Adds a value at the end. For want of memory the list stays as it was, and the value is dropped.
    pub fn push(&mut self, item: T) -> Result<(), AllocError>
        ensures ok { OnOk result (self.new ≡ self.old ++ item ∷ []) }
        ensures err { OnErr result (self.new ≡ self.old) }
    {
        match self.items.push(item) {
            Ok(()) => Ok(()),
            Err(_) => Err(AllocError),
        }
    }

    /// Adds the values of another list at the end, in their order. For want of memory the list stays as it was, and the
    /// other one is dropped.
    pub fn append(&mut self, mut other: ListOf<T>) -> Result<(), AllocError>
        ensures ok { OnOk result (self.new ≡ self.old ++ other) }
        ensures err { OnErr result (self.new ≡ self.old) }
    {
        self.items.append(&mut other.items)
    }
}

/// Each value is copied exactly, so the list is.
impl<T: TryCopy> Clone for ListOf<T> {
    ghost use Rattle.std.specs.Prelude.{◌≡◌};

    ghost is_clone = { λ list clone. clone ≡ list };

    fn clone(&self) -> Result<ListOf<T>, AllocError> {
        Ok(ListOf {
            items: self.items.clone()?,
        })
    }
}

impl<T: TryCopy> TryCopy for ListOf<T> {
    ghost same = { λ list clone equal. equal };
}

/// The list of the vector's values.
impl<T> From<Vec<T>> for ListOf<T> {
    ghost use Rattle.std.specs.Prelude.{◌≡◌};

    ghost from_gives = { λ items list. list ≡ items.items };

    fn from(items: Vec<T>) -> ListOf<T> {
        ListOf { items }
    }
}

/// A list of octets.
pub type Octets = ListOf<u8>;

impl ListOf<u8> {
    /// The octets in order. Each is below 256.
    pub fn octets(&self) -> &[u8]
        ensures value { result.now ≡ self.now }
        ensures range { AreOctets self.now }
    {
        let octets: &[u8] = &self.items;
        octets
    }
}

/// Copies two lists of octets.
pub(crate) fn copy_two(first: &Octets, second: &Octets) -> Result<(Octets, Octets), AllocError>
    ensures { IfOk result (λ copies. (copies.0 ≡ first.now) × (copies.1 ≡ second.now)) }
{
    Ok((first.copy()?, second.copy()?))
}

/// A list of tracking area codes (3GPP TS 23.003, 19.4.2.3).
pub type Areas = ListOf<u16>;

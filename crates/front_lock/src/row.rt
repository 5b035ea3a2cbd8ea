//! Fronts in a row, and a seat of each.
ghost use Rattle.std.specs.Prelude.{◌≡◌, All};
ghost use Rattle.front_lock.specs.Front.{view};

use crate::front::Front;
use crate::held::Held;
use crate::seat::FrontSeat;

/// A front for each of several values.
#[derive(Drop)]
pub struct Fronts<T: Held> {
    pub(crate) fronts: Vec<Front<T>>,
}

/// A seat of each front of a row, all of the same number.
#[derive(Drop)]
pub struct FrontsSeat<T: Held> {
    pub(crate) number: u32,
    pub(crate) seats: Vec<FrontSeat<T>>,
    ghost numbered: { All (λ s. (view s).number ≡ number) seats.items },
}

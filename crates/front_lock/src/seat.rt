//! A seat at a front.
ghost use Rattle.std.specs.Prelude.{◌≡◌, []};
ghost use Rattle.front_lock.specs.declared.view.Stage.TheVariants.{Idle};
ghost use Rattle.front_lock.specs.View.{KnowsItsTurns};

use crate::held::Held;
use crate::view::View;
use atomic_table::Seat;

/// What a seat is to the table below its front.
pub(crate) type TableSeat<T> = Seat<T, View<<T as Held>::Turn, <T as Held>::Basis>>;

/// The right to make turns at one front, one after another, under a number of its own. Seats are made with their front alone.
///
/// Contracts see what the seat knows, a `View`: the history as far as it has seen it, and for each number that it speaks for
/// the turns of that number. It always speaks for its own number, and has seen the turns of its numbers, each once, and no
/// others of them (`knows`).
#[derive(Drop)]
pub struct FrontSeat<T: Held> {
    pub(crate) seat: Seat<T, View<T::Turn, T::Basis>>,
    pub(crate) number: u32,
    ghost rests: { (seat.me.1 ≡ []) × (seat.me.0.stage ≡ Idle) },
    ghost number_is: { seat.me.0.number ≡ number },
    pub ghost knows: { KnowsItsTurns T.by seat.me.0 },
}

impl<T: Held> FrontSeat<T> {
    ghost use Rattle.front_lock.specs.Front.{view};

    pub(crate) fn new(seat: TableSeat<T>, number: u32) -> FrontSeat<T>
        requires rests { (seat.me.1 ≡ []) × (seat.me.0.stage ≡ Idle) }
        requires number { seat.me.0.number ≡ number }
        requires knows { KnowsItsTurns T.by seat.me.0 }
        ensures { result.seat ≡ seat }
    {
        FrontSeat { seat, number }
    }

    /// Its own number, from 0.
    pub fn number(&self) -> u32
        ensures { result ≡ (view self.now).number }
    {
        self.number
    }
}

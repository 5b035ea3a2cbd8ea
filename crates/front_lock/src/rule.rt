//! The rule that the words, the value and the views of all seats keep, and the kinds of atomic step, with what each tells its
//! seat.
ghost use Rattle.front_lock.specs.Rule.{Keeps};
ghost use Rattle.front_lock.specs.View.{dealer_view, spent_view};
ghost use Rattle.front_lock.specs.Steps.{Draws, Looks, Takes, Raises, Returns, Passes, Compares, dealer_left, number_dealt, views_joined};

use crate::held::Held;
use crate::view::{Plan, View};
use atomic_table::{Join, Play, Split, TableRule};
use std::marker::PhantomData;

/// The rule of a front.
pub struct Order<T> {
    marker: PhantomData<T>,
}

impl<T: Held> TableRule<T, View<T::Turn, T::Basis>, Plan<T>> for Order<T> {
    ghost holds = { λ plan. Keeps T.turns T.basis T.by (T.basis plan.value.value) plan.seats };

    ghost first = { λ plan. dealer_view (T.basis plan.value.value) plan.seats plan.seats };
}

/// The exchange on the tickets: the seat has the ticket that it found, or tries again.
pub struct Draw;

impl<T: Held> Play<T, View<T::Turn, T::Basis>> for Draw {
    ghost then = { Draws };
}

/// A load of what is served: the seat knows that it is served, or looks again.
pub struct Look;

impl<T: Held> Play<T, View<T::Turn, T::Basis>> for Look {
    ghost then = { Looks };
}

/// The value is taken, and its history seen.
pub struct Take;

impl<T: Held> Play<T, View<T::Turn, T::Basis>> for Take {
    ghost then = { Takes T.turns T.basis };
}

/// The length of the history is raised: the turn is seen, and is one of the seat's own.
pub struct Raise;

impl<T: Held> Play<T, View<T::Turn, T::Basis>> for Raise {
    ghost then = { Raises T.turns };
}

/// The value is given back.
pub struct Return;

impl<T: Held> Play<T, View<T::Turn, T::Basis>> for Return {
    ghost then = { Returns };
}

/// The next ticket is served, and the seat has none.
pub struct Pass;

impl<T: Held> Play<T, View<T::Turn, T::Basis>> for Pass {
    ghost then = { Passes T.by };
}

/// A seat gives its greatest number to a seat that is new.
pub struct Deal;

impl<X, B> Split<View<X, B>> for Deal {
    ghost left = { dealer_left };

    ghost right = { number_dealt };
}

/// A seat takes in another, which is spent.
pub struct Meet;

impl<X, B> Join<View<X, B>> for Meet {
    ghost both = { views_joined };

    ghost spent = { spent_view };
}

/// Behind `Meet`: of what both had seen, the shorter begins the longer.
pub struct Compare;

impl<T: Held> Play<T, View<T::Turn, T::Basis>> for Compare {
    ghost then = { Compares T.by };
}

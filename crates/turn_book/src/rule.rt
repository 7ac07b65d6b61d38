//! The rule of a book, and what each step tells. These types are there for the proofs alone.
ghost use Rattle.turn_book.specs.Rule.{Kept};
ghost use Rattle.turn_book.specs.Steps.{took_empty, began, read, drew, looked, gave, learned_both};
ghost use Rattle.turn_book.specs.Views.{first_view, less_one, one_part, joined, spent};
ghost use Rattle.turn_book.specs.declared.views.Stage.TheVariants.{Empty};

use crate::histories::{Picks, Stands};
use crate::views::View;
use atomic_table::{Join, Play, Split, TableRule};
use std::marker::PhantomData;

/// The rule of a book, which holds between any two steps.
pub struct InTurn<S> {
    of: PhantomData<S>,
}

impl<S: Stands> TableRule<Option<S>, View<S::Entry, S::Opened>, S> for InTurn<S> {
    ghost holds = { Kept S.stands S.opened };

    ghost first = { λ x. first_view (S.opened x) Empty };
}

/// The slot without a value goes into the hand of the first seat.
pub struct TakeEmpty;

impl<S, E, O> Play<Option<S>, View<E, O>> for TakeEmpty {
    ghost then = { took_empty };
}

/// The slot goes home with the first value.
pub struct Begin;

impl<S, E, O> Play<Option<S>, View<E, O>> for Begin {
    ghost then = { began };
}

/// The number of tickets is read.
pub struct ReadTickets;

impl<S, E, O> Play<Option<S>, View<E, O>> for ReadTickets {
    ghost then = { read };
}

/// A ticket is drawn, where no other was drawn since they were read.
pub struct Draw;

impl<S, E, O> Play<Option<S>, View<E, O>> for Draw {
    ghost then = { drew };
}

/// The number of calls that are done is read. Where that is the seat's ticket, the value goes into its hand.
pub struct Look<S> {
    of: PhantomData<S>,
}

impl<S: Stands> Play<Option<S>, View<S::Entry, S::Opened>> for Look<S> {
    ghost then = { looked S.stands };
}

/// One call more is done, and its entry joins the history.
pub struct Advance<M> {
    of: PhantomData<M>,
}

impl<S, E, O, M: Picks<E>> Play<Option<S>, View<E, O>> for Advance<M> {
    ghost then = { gave M.entry };
}

/// Of what two seats had seen, the longer is kept.
pub struct LearnBoth;

impl<S, E, O> Play<Option<S>, View<E, O>> for LearnBoth {
    ghost then = { learned_both };
}

/// One part goes to a new seat.
pub struct OnePart;

impl<E, O> Split<View<E, O>> for OnePart {
    ghost left = { less_one };

    ghost right = { one_part };
}

/// Two seats become one.
pub struct Both;

impl<E, O> Join<View<E, O>> for Both {
    ghost both = { joined };

    ghost spent = { spent };
}

//! The book: a value, whose turn it is with it, and the rule that both follow.
ghost use Rattle.std.specs.Prelude.{◌≡◌, ◌<◌, [], IfOk, IfErr, IfSome, MatchOption, false, true, ◌==◌};
ghost use Rattle.turn_book.specs.Histories.{StartsWith};
ghost use Rattle.turn_book.specs.Views.{advanced};
ghost use Rattle.turn_book.specs.Seats.{IsIdle, IsOut, AddsTo, AtEnd, Called, Drew, Looked, TookValue, Waits};
ghost use Rattle.turn_book.specs.Callers.{all_parts, starting, ended, given_back, one_less, one_of, both_of, TookOut, AddsEntry, HasOneHistory, Closes};

use crate::callers::{Out, Turns};
use crate::histories::{Picks, Stands};
use crate::rule::{
    Advance, Begin, Both, Draw, InTurn, LearnBoth, Look, OnePart, ReadTickets, TakeEmpty,
};
use crate::views::View;
use atomic_table::{Seat, Table};
use std::alloc::{AllocError, Global};
use std::marker::Model;
use std::sync::Wait;
use std::thread;

// The word with the number of tickets that were drawn.
const TICKETS: usize = 0;

// The word with the number of calls that are done.
const DONE: usize = 1;

/// A value that callers take in turn, in the order of the tickets that they drew. Contracts see which book it is.
pub struct TurnBook<S: Stands> {
    table: Table<Option<S>, View<S::Entry, S::Opened>, S, InTurn<S>, Global>,
}

impl<S: Stands> Model for TurnBook<S> {
    ghost use Rattle.std.specs.Prelude.{◌≡◌};
    ghost use Rattle.atomic_table.specs.Seated.{TableId, table_id_coded};

    ghost Value = { TableId };

    ghost coded = { table_id_coded };

    ghost view = { λ b. b.table.shared.table_id };

    ghost invariant = { λ b. (b.table.shared.table_id.words ≡ 2) × (b.table.shared.table_id.slots ≡ 1) };
}

impl<S: Stands> TurnBook<S> {
    /// A book of a value that stands for no entry, with all its turns in one. Where there is no memory, the value comes back.
    pub fn make(alloc: Global, value: S) -> Result<(TurnBook<S>, Turns<S>), (S, AllocError)>
        requires stands { S.stands (S.opened value) [] value }
        ensures made { IfOk result (λ made. made.1 ≡ starting made.0 (S.opened value)) }
        ensures value { IfErr result (λ refused. refused.0 ≡ value) }
    {
        let (table, mut seat) = match Table::vacant(alloc, &[0, 0], 1, &value) {
            Ok(made) => made,
            Err(error) => return Err((value, error)),
        };
        table.shared.load::<TakeEmpty>(&mut seat, TICKETS);
        match table.shared.exchange(&mut seat, 0, Some(value)) {
            None => {}
            Some(_) => unreachable!(),
        }
        table.shared.load::<Begin>(&mut seat, TICKETS);
        Ok((TurnBook { table }, Turns { seat }))
    }

    // Draws the next ticket, where there is one.
    fn draw<R: Wait>(
        &self,
        rt: &R,
        seat: &mut Seat<Option<S>, View<S::Entry, S::Opened>>,
    ) -> Option<u64>
        requires own { seat.old.table_id ≡ self.now }
        requires idle { IsIdle seat.old.me }
        ensures own { seat.new.table_id ≡ seat.old.table_id }
        ensures drew { MatchOption result (AtEnd seat.old.me seat.new.me) (λ n. Drew seat.old.me n seat.new.me) }
    {
        let shared = &self.table.shared;
        let last = u64::MAX;
        for _ in rt.forever() {
            let drawn = shared.load::<ReadTickets>(seat, TICKETS);
            if drawn == last {
                return None;
            }
            let found = shared.compare_exchange::<Draw>(seat, TICKETS, drawn, drawn + 1);
            if found == drawn {
                return Some(drawn);
            }
            thread::yield_now();
        }
        unreachable!()
    }

    // How many calls are done. Where that is the ticket, the value is in the seat's hand.
    fn look(&self, seat: &mut Seat<Option<S>, View<S::Entry, S::Opened>>, ticket: u64) -> u64
        requires own { seat.old.table_id ≡ self.now }
        requires waits { Waits ticket seat.old.me }
        ensures own { seat.new.table_id ≡ seat.old.table_id }
        ensures saw { Looked S.stands ticket seat.old.me seat.new.me (result == ticket) }
    {
        self.table.shared.load::<Look<S>>(seat, DONE)
    }

    // Waits until as many calls are done as the ticket says, asleep while that isn't so.
    fn wait<R: Wait>(
        &self,
        rt: &R,
        seat: &mut Seat<Option<S>, View<S::Entry, S::Opened>>,
        ticket: u64,
    )
        requires own { seat.old.table_id ≡ self.now }
        requires waits { Waits ticket seat.old.me }
        ensures own { seat.new.table_id ≡ seat.old.table_id }
        ensures called { Called S.stands ticket seat.old.me seat.new.me }
    {
        for _ in rt.forever() {
            let done = self.look(seat, ticket);
            if done == ticket {
                return;
            }
            self.table
                .shared
                .park(rt, DONE, (done & 0xffff_ffff) as u32);
        }
        unreachable!()
    }

    // Draws a ticket, waits for its turn and takes the value out of the slot.
    fn take_value<R: Wait>(
        &self,
        rt: &R,
        seat: &mut Seat<Option<S>, View<S::Entry, S::Opened>>,
    ) -> Option<S>
        requires own { seat.old.table_id ≡ self.now }
        requires idle { IsIdle seat.old.me }
        ensures own { seat.new.table_id ≡ seat.old.table_id }
        ensures took { MatchOption result (AtEnd seat.old.me seat.new.me) (λ x. TookValue S.stands seat.old.me x seat.new.me) }
    {
        let ticket = self.draw(rt, seat)?;
        self.wait(rt, seat, ticket);
        match self.table.shared.exchange(seat, 0, None) {
            Some(value) => Some(value),
            None => unreachable!(),
        }
    }

    /// Draws a ticket, waits for its turn, and takes the value out. `None` comes exactly where the tickets were read at their
    /// end in this call: 2^64 - 1 of them were drawn.
    pub fn take<R: Wait>(&self, rt: &R, turns: &mut Turns<S>) -> Option<Out<S>>
        requires own { turns.old.book ≡ self.now }
        requires at_rest { turns.old.is_out ≡ false }
        ensures took { MatchOption result (turns.new ≡ ended turns.old) (λ out. TookOut S.stands turns.old out turns.new) }
    {
        let value = match self.take_value(rt, &mut turns.seat) {
            Some(value) => value,
            None => return None,
        };
        Some(Out { value })
    }

    // Wakes who sleeps. Where no more tickets were drawn than calls are done that is nobody, and costs no call of the system:
    // who draws one from here on reads this number, or a later one.
    fn wake_others(&self, done: u64) {
        if self.table.shared.peek(TICKETS) != done {
            self.table.shared.wake_all(DONE);
        }
    }

    // Puts the value into the slot and lets the next one have its turn.
    fn give_value<M: Picks<S::Entry>>(
        &self,
        seat: &mut Seat<Option<S>, View<S::Entry, S::Opened>>,
        value: S,
    )
        requires own { seat.old.table_id ≡ self.now }
        requires out { IsOut seat.old.me }
        requires adds { AddsTo S.stands seat.old.me.0.opened seat.old.me.0.seen M.entry value }
        ensures own { seat.new.table_id ≡ seat.old.table_id }
        ensures gave { IfSome M.entry (λ e. seat.new.me ≡ (advanced e seat.old.me.0, [])) }
    {
        match self.table.shared.exchange(seat, 0, Some(value)) {
            None => {}
            Some(_) => unreachable!(),
        }
        let done = self.table.shared.fetch_add::<Advance<M>>(seat, DONE, 1);
        self.wake_others(done.wrapping_add(1));
    }

    /// Gives the value back, with one entry more, which the caller picks. It takes no memory and waits for nobody.
    pub fn give<M: Picks<S::Entry>>(&self, turns: &mut Turns<S>, out: Out<S>)
        requires own { turns.old.book ≡ self.now }
        requires out { turns.old.is_out ≡ true }
        requires adds { AddsEntry S.stands turns.old M.entry out }
        ensures gave { IfSome M.entry (λ entry. turns.new ≡ given_back entry turns.old) }
        ensures one_history { HasOneHistory S.stands turns.old turns.new.seen out }
    {
        let Out { value } = out;
        self.give_value::<M>(&mut turns.seat, value);
    }

    /// Hands one part to new turns, which have seen the same and have no call of their own. It asks for two parts at least.
    pub fn split(&self, turns: &mut Turns<S>) -> Turns<S>
        requires own { turns.old.book ≡ self.now }
        requires at_rest { turns.old.is_out ≡ false }
        requires parts { 1 < turns.old.parts }
        ensures left { turns.new ≡ one_less turns.old }
        ensures right { result ≡ one_of turns.old }
    {
        Turns {
            seat: self.table.shared.split_seat::<OnePart>(&mut turns.seat),
        }
    }

    /// Puts two turns together: the parts and the places of both, and the longer of what they had seen, which begins with
    /// either.
    pub fn join(&self, into: &mut Turns<S>, from: Turns<S>)
        requires own { (into.old.book ≡ self.now) × (from.book ≡ self.now) }
        requires at_rest { (into.old.is_out ≡ false) × (from.is_out ≡ false) }
        ensures both { into.new ≡ both_of into.old from }
        ensures forgets_nothing { StartsWith into.new.seen into.old.seen × StartsWith into.new.seen from.seen }
    {
        let Turns { seat } = from;
        self.table.shared.join_seat::<Both>(&mut into.seat, seat);
        self.table.shared.load::<LearnBoth>(&mut into.seat, TICKETS);
    }

    /// Ends the book, and gives the value. It asks for all parts, so that all other turns have been joined.
    pub fn close(self, turns: Turns<S>) -> S
        requires own { turns.book ≡ self }
        requires at_rest { turns.is_out ≡ false }
        requires all { turns.parts ≡ all_parts }
        ensures closes { Closes S.stands turns result }
    {
        let TurnBook { table } = self;
        let Turns { seat } = turns;
        let mut closed = table.close_with(seat);
        let value = closed.take(0);
        closed.free();
        match value {
            Some(value) => value,
            None => unreachable!(),
        }
    }
}

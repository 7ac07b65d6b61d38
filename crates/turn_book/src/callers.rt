//! What a caller of a book holds: his turns, and the value while it is out.
ghost use Rattle.std.specs.Prelude.{◌≡◌};
ghost use Rattle.std.specs.Borrow.{sem};

use crate::histories::Stands;
use crate::views::View;
use atomic_table::Seat;
use std::marker::Model;

/// What a caller knows of one book, with its parts of the right to close it. Contracts see what is known (`Known`).
///
/// Turns that are dropped take their parts with them: the book then can't be closed any more.
#[derive(Drop)]
pub struct Turns<S: Stands> {
    pub(crate) seat: Seat<Option<S>, View<S::Entry, S::Opened>>,
}

impl<S: Stands> Model for Turns<S> {
    ghost use Rattle.turn_book.specs.Callers.{Known, known_code, known};
    ghost use Rattle.turn_book.specs.Seats.{IsSettled};

    ghost Value = { Known S.Entry S.Opened };

    ghost coded = { known_code S.Entry.code S.Opened.code };

    ghost view = { λ t. known t.seat.table_id t.seat.me.0 };

    ghost invariant = { λ t. IsSettled t.seat.me };
}

/// The value, while it is out. It has to be given back. Contracts see the value.
pub struct Out<S> {
    pub(crate) value: S,
}

impl<S> Model for Out<S> {
    ghost Value = { S };

    ghost coded = { S.code };

    ghost view = { λ out. out.value };
}

impl<S> Out<S> {
    ghost use Rattle.turn_book.specs.Lending.{LendsValue};

    /// Lends the value that is out.
    pub fn state(&mut self) -> &mut S
        ensures* writes_back { sem 𝓛 (LendsValue S.row self.entry result) }
        ensures value { result.now ≡ self.old }
    {
        &mut self.value
    }
}

//! A posting, and its neighbours in its two chains.
ghost use Rattle.std.specs.Prelude.{◌≡◌, ◌<◌, None, Some};
ghost use Rattle.search_index.specs.Place.{no_number};
ghost use Rattle.search_index.specs.Posting.{link_of, other_side, owner_of, with_before, with_link, with_next};

use std::marker::Model;
use std::mem::size_of;

/// The number that stands for no place, no object and no term.
pub(crate) const NONE: u32 = u32::MAX;

/// A place or none, in four bytes. Contracts see an `Option`.
#[derive(Clone, Copy, Drop)]
pub(crate) struct Place {
    number: u32,
}

impl Model for Place {
    ghost use Rattle.std.specs.Prelude.{Option, ℕ};
    ghost use Rattle.search_index.specs.Place.{number_of_place, place_of, same_number};

    ghost Value = { Option ℕ };

    ghost view = { λ p. place_of p.number };

    ghost inverse = { λ o. record { number = number_of_place o } };

    ghost inverse_ok = { λ p h i. record { number = same_number p.number i } };
}

impl Place {
    /// No place.
    pub(crate) fn none() -> Place
        ensures { result ≡ None }
    {
        Place { number: NONE }
    }

    /// This place.
    pub(crate) fn at(place: usize) -> Place
        requires { place < no_number }
        ensures { result ≡ Some place }
    {
        Place {
            number: place as u32,
        }
    }

    /// The place, if it is one.
    pub(crate) fn get(self) -> Option<usize>
        ensures { result ≡ self }
    {
        if self.number == NONE {
            None
        } else {
            Some(self.number as usize)
        }
    }
}

/// The neighbours of a posting in a chain, by their places.
#[derive(Clone, Copy, Drop)]
pub(crate) struct Link {
    pub(crate) before: Place,
    pub(crate) next: Place,
}

/// Which of its two chains.
#[derive(Clone, Copy, Drop)]
pub(crate) enum Side {
    /// The chain of a term.
    Term,
    /// The chain of an object.
    Object,
}

impl Side {
    /// The other chain.
    pub(crate) fn other(self) -> Side
        ensures { result ≡ other_side self }
    {
        match self {
            Side::Term => Side::Object,
            Side::Object => Side::Term,
        }
    }
}

/// That an object has a term, both by their numbers.
#[derive(Clone, Copy, Drop)]
pub(crate) struct Posting {
    pub(crate) object: u32,
    pub(crate) term: u32,
    pub(crate) of_object: Link,
    pub(crate) of_term: Link,
}

// A site has millions of them.
const _: () = prove!(size_of::<Posting>() == 24);

impl Posting {
    /// What stands in a free place: it has no object, and leads to the next free place.
    pub(crate) fn freed(next: Place) -> Posting
        ensures object { result.object ≡ no_number }
        ensures next { result.of_object.next ≡ next }
    {
        Posting {
            object: NONE,
            term: NONE,
            of_object: Link {
                before: Place::none(),
                next,
            },
            of_term: Link {
                before: Place::none(),
                next: Place::none(),
            },
        }
    }

    /// Its neighbours in a chain.
    pub(crate) fn link(&self, side: Side) -> Link
        ensures { result ≡ link_of side self.now }
    {
        match side {
            Side::Term => self.of_term,
            Side::Object => self.of_object,
        }
    }

    /// The number of the term or object whose chain it is.
    pub(crate) fn owner(&self, side: Side) -> usize
        ensures { result ≡ owner_of side self.now }
    {
        match side {
            Side::Term => self.term as usize,
            Side::Object => self.object as usize,
        }
    }

    /// With another link in a chain.
    fn with_link(&self, side: Side, link: Link) -> Posting
        ensures { result ≡ with_link side link self.now }
    {
        match side {
            Side::Term => Posting {
                object: self.object,
                term: self.term,
                of_object: self.of_object,
                of_term: link,
            },
            Side::Object => Posting {
                object: self.object,
                term: self.term,
                of_object: link,
                of_term: self.of_term,
            },
        }
    }

    /// With this place behind it in a chain.
    pub(crate) fn with_next(&self, side: Side, next: Place) -> Posting
        ensures { result ≡ with_next side next self.now }
    {
        let before = self.link(side).before;
        self.with_link(side, Link { before, next })
    }

    /// With this place before it in a chain.
    pub(crate) fn with_before(&self, side: Side, before: Place) -> Posting
        ensures { result ≡ with_before side before self.now }
    {
        let next = self.link(side).next;
        self.with_link(side, Link { before, next })
    }
}

//! What was read of a query: the open group, and those around it.
ghost use Rattle.query_text.specs.Items.{what_of};
ghost use Rattle.query_text.specs.Machine.{deeper, new_frame, next_or, pushed, ready, whole};
ghost use Rattle.std.specs.Prelude.{◌≡◌, ◌<◌, ◌∷◌, ◌↔◌, [], IfOk, IsTrue, MatchOption};

use crate::parts::Part;
use crate::query::{AllOf, Item, Query, What};
use doc_tree::{Listed, NoMemory};
use std::alloc::Global;
use std::marker::Model;

/// An open group, or the query itself: what was read of it.
#[derive(Drop)]
pub(crate) struct Frame {
    // How deep parentheses and NOTs may nest in it.
    room: u8,
    // What OR joins, but for the last of it.
    ors: Listed<AllOf>,
    // Of the last, what AND joins.
    ands: Listed<Item>,
    // Of the item that is due, the NOTs before it.
    nots: u8,
    // How deep parentheses and NOTs may nest in that item.
    left: u8,
}

impl Model for Frame {
    ghost use Rattle.std.specs.Prelude.{◌+◌, ◌<◌};
    ghost use Rattle.query_text.specs.Frames as open_group;
    ghost use Rattle.query_text.specs.FrameCode.{frame_code};

    ghost Value = { open_group.Frame };

    ghost coded = { frame_code };

    ghost view = { λ f. record { room = f.room; ors = f.ors; ands = f.ands; nots = f.nots; left = f.left } };

    ghost invariant = { λ f. f.nots + f.left < 256 };
}

/// What may follow.
#[derive(Drop)]
pub(crate) enum Mode {
    /// An item.
    Due,
    /// More of a field each byte of which stood for itself: it may turn out to be NOT.
    Naming(Listed<u8>),
    /// More of a term, or what follows a term.
    Within(Part),
    /// What follows an item and white space, or a group.
    After,
    /// The `N` of AND.
    AndN,
    /// The `D` of AND.
    AndD,
    /// White space or `(` behind AND.
    AndEnd,
    /// The `R` of OR.
    OrR,
    /// White space or `(` behind OR.
    OrEnd,
}

/// The groups around the open one: contracts see the innermost first.
#[derive(Drop)]
pub(crate) struct Below {
    frames: Vec<Frame>,
}

impl Model for Below {
    ghost use Rattle.std.specs.Prelude.{List, reverse};
    ghost use Rattle.query_text.specs.Frames as open_group;
    ghost use Rattle.std.specs.Coded.{coded_list};
    ghost use Rattle.query_text.specs.FrameCode.{frame_code};

    ghost Value = { List open_group.Frame };

    ghost coded = { coded_list frame_code };

    ghost view = { λ b. reverse b.frames.items };
}

/// What was read of a query.
#[derive(Drop)]
pub(crate) struct Config {
    pub(crate) mode: Mode,
    pub(crate) frame: Frame,
    pub(crate) below: Below,
}

impl Frame {
    /// A group of which nothing was read.
    pub(crate) fn new(alloc: Global, room: u8) -> Frame
        ensures { result ≡ new_frame room }
    {
        Frame {
            room,
            ors: Listed::new(alloc),
            ands: Listed::new(alloc),
            nots: 0,
            left: room,
        }
    }

    /// How deep parentheses and NOTs may nest in the item that is due.
    pub(crate) fn left(&self) -> u8
        ensures { result ≡ self.now.left }
    {
        self.left
    }

    /// The group with one item more.
    pub(crate) fn pushed(self, what: What) -> Result<Frame, NoMemory>
        ensures { IfOk result (λ f. f ≡ pushed (what_of what) self) }
    {
        let Frame {
            room,
            ors,
            mut ands,
            nots,
            left: _,
        } = self;
        ands.push(Item { nots, what })?;
        Ok(Frame {
            room,
            ors,
            ands,
            nots: 0,
            left: room,
        })
    }

    /// The group, where the next item is due.
    pub(crate) fn ready(self) -> Frame
        ensures { result ≡ ready self }
    {
        let Frame {
            room,
            ors,
            ands,
            nots: _,
            left: _,
        } = self;
        Frame {
            room,
            ors,
            ands,
            nots: 0,
            left: room,
        }
    }

    /// The group, where the first item behind OR is due.
    pub(crate) fn next_or(self, alloc: Global) -> Result<Frame, NoMemory>
        ensures { IfOk result (λ f. f ≡ next_or self) }
    {
        let Frame {
            room,
            mut ors,
            ands,
            nots: _,
            left: _,
        } = self;
        ors.push(AllOf {
            items: ands.into_vec(),
        })?;
        Ok(Frame {
            room,
            ors,
            ands: Listed::new(alloc),
            nots: 0,
            left: room,
        })
    }

    /// The group, with one NOT more before the item that is due.
    pub(crate) fn deeper(self) -> Frame
        requires { 0 < self.left }
        ensures { result ≡ deeper self }
    {
        let Frame {
            room,
            ors,
            ands,
            nots,
            left,
        } = self;
        Frame {
            room,
            ors,
            ands,
            nots: nots + 1,
            left: left - 1,
        }
    }

    /// The query that was read of the group.
    #[tactic(auto, using(crate::proofs::Sound::ors_with_more))]
    pub(crate) fn whole(self) -> Result<Query, NoMemory>
        ensures { IfOk result (λ query. query ≡ whole self) }
    {
        let Frame {
            room: _,
            mut ors,
            ands,
            nots: _,
            left: _,
        } = self;
        ors.push(AllOf {
            items: ands.into_vec(),
        })?;
        Ok(Query {
            any_of: ors.into_vec(),
        })
    }
}

impl Below {
    /// No group, without memory.
    pub(crate) fn new(alloc: Global) -> Below
        ensures { result ≡ [] }
    {
        Below {
            frames: Vec::new(alloc),
        }
    }

    /// Whether there is no group.
    pub(crate) fn is_empty(&self) -> bool
        ensures { IsTrue result ↔ (self.now ≡ []) }
    {
        self.frames.is_empty()
    }

    /// One group more, which is the innermost.
    pub(crate) fn with(self, frame: Frame) -> Result<Below, NoMemory>
        ensures { IfOk result (λ below. below ≡ frame ∷ self) }
    {
        let Below { mut frames } = self;
        frames.push(frame)?;
        Ok(Below { frames })
    }

    /// The innermost group, with those around it.
    pub(crate) fn innermost(self) -> Option<(Frame, Below)>
        ensures { MatchOption result (self ≡ []) (λ parts. self ≡ parts.0 ∷ parts.1) }
    {
        let Below { mut frames } = self;
        match frames.pop() {
            Some(frame) => Some((frame, Below { frames })),
            None => None,
        }
    }
}

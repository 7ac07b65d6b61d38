//! Room for the bytes of a stream that were read and not yet used.
ghost use Rattle.std.specs.Prelude.{◌≡◌, ◌+◌, ◌<◌, ◌≤◌, [], MatchBool, IfOk, OnErr, length, drop};
ghost use Rattle.std.specs.Io.KnownBytes.{IsAtEnd};
ghost use Rattle.outside_core.specs.Failed.{HasCause};
ghost use Rattle.http_wire.specs.Faults.{OnNotAMessage, HasReadCause};
ghost use Rattle.http_wire.specs.Room.{stream};

use crate::faults::WireFault;
use crate::window::Window;
use doc_tree::NoMemory;
use http_routes::Routes;
use outside_core::{Failed, Source};
use std::alloc::Global;
use std::marker::Model;

/// Room for the bytes that were read of a stream and not yet used, and the router by which its
/// requests find their routes: both are made once a stream.
///
/// A room is for one stream, from its first byte on. What it holds behind a message is the front of
/// the next one. Contracts see it as the bytes held and their place in the stream.
#[derive(Drop)]
pub struct Room {
    window: Window,
    place: u64,
    routes: Routes,
}

impl Model for Room {
    ghost use Rattle.std.specs.Prelude.{◌≤◌};
    ghost use Rattle.http_wire.specs.Held.{Held};

    ghost Value = { Held };

    ghost view = { λ r. record { held = r.window; place = r.place } };

    ghost invariant = { λ r. r.place ≤ 1099511627776 };
}

impl Room {
    /// Room for a stream of which nothing was read.
    pub fn take(alloc: Global) -> Result<Self, NoMemory>
        ensures { IfOk result (λ room. room ≡ record { held = []; place = 0 }) }
    {
        Ok(Room {
            window: Window::take(alloc)?,
            place: 0,
            routes: Routes::take(alloc)?,
        })
    }

    /// The router over the table of routes.
    pub(crate) fn routes(&self) -> &Routes {
        &self.routes
    }

    /// The bytes that were read and not yet used.
    pub(crate) fn held(&self) -> &[u8]
        ensures bytes { result.now ≡ self.now.held }
        ensures fits { length result.now ≤ 16384 }
    {
        self.window.held()
    }

    /// Whether it holds as much as it can.
    pub(crate) fn is_full(&self) -> bool
        ensures { MatchBool result (length self.now.held ≡ 16384) (length self.now.held < 16384) }
    {
        self.window.is_full()
    }

    /// The fault that no message begins at the room's place.
    pub(crate) fn no_message(&self) -> WireFault
        ensures { result ≡ WireFault.NotAMessage self.now.place }
    {
        WireFault::NotAMessage { place: self.place }
    }

    /// The place in the stream of the message that is read.
    pub(crate) fn place(&self) -> u64
        ensures place { result ≡ self.now.place }
        ensures early { result ≤ 1099511627776 }
    {
        self.place
    }

    /// Goes on to the message that begins so many bytes later.
    pub(crate) fn advance(&mut self, count: u64)
        requires { self.old.place + count ≤ 1099511627776 }
        ensures { self.new ≡ record self.old { place = self.old.place + count } }
    {
        self.place += count;
    }

    /// Reads once, behind what is held.
    pub(crate) fn fill<S: Source>(&mut self, source: &mut S) -> Result<usize, Failed>
        requires { length self.old.held < 16384 }
        ensures kept { stream self.new (S.left source.new) ≡ stream self.old (S.left source.old) }
        ensures more { IfOk result (λ count. length self.new.held ≡ length self.old.held + count) }
        ensures fits { length self.new.held ≤ 16384 }
        ensures end { IfOk result (λ count. count ≡ 0 → IsAtEnd (S.left source.new)) }
        ensures failed { OnErr result (self.new.held ≡ self.old.held) }
        ensures place { self.new.place ≡ self.old.place }
        ensures aside { S.aside source.new ≡ S.aside source.old }
        ensures cause { HasCause (S.faults source.old) (S.faults source.new) result }
    {
        self.window.fill(source)
    }

    /// Whether the stream has more bytes, of which it then holds some.
    pub(crate) fn has_more<S: Source>(&mut self, source: &mut S) -> Result<bool, WireFault>
        ensures kept { stream self.new (S.left source.new) ≡ stream self.old (S.left source.old) }
        ensures more { IfOk result (λ more. MatchBool more (0 < length self.new.held) (IsAtEnd (stream self.old (S.left source.old)))) }
        ensures failed { OnErr result (self.new.held ≡ []) }
        ensures never { OnNotAMessage result (λ _. ⊥) }
        ensures place { self.new.place ≡ self.old.place }
        ensures aside { S.aside source.new ≡ S.aside source.old }
        ensures cause { HasReadCause (S.faults source.old) (S.faults source.new) result }
    {
        Ok(self.window.has_more(source)?)
    }

    /// Lets go of bytes at the front.
    pub(crate) fn drop_front(&mut self, count: usize)
        requires { count ≤ length self.old.held }
        ensures { self.new ≡ record self.old { held = drop count self.old.held } }
    {
        self.window.drop_front(count);
    }
}

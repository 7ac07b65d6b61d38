//! What makes the objects of the outside for which a command asks: the connection to a server.

ghost use Rattle.std.specs.Prelude.{◌≡◌, ℕ, IfOk};
ghost use Rattle.outside_keeper.specs.Keeper.{HasOpenCause};
ghost use Rattle.chefsite.specs.Makers.{Peer, peer_with};

use doc_tree::Text;
use outside_core::Failed;
use outside_keeper::OpenFault;
use outside_link::{Connection, Link, connect};
use std::net::Net;

/// What makes the objects of the outside for which a command asks, and takes them back before the run ends.
///
/// It holds one peer: a making call hands it out, and the back call puts it in its place again.
pub trait Makers {
    /// A connection to a server.
    type Peer: Link;

    /// The peer that is held; while it is handed out, as it was before.
    ghost peer_held: { Self → Peer };

    /// How often no peer could be made. The count never falls, and stands still at 2^64-1.
    ghost unmade: { Self → ℕ };

    /// Connects to a port of a host.
    ///
    /// [`OpenFault::Failed`] comes only where the count rose, and any other answer leaves it. It is a host that isn't there or
    /// doesn't answer.
    fn peer(&mut self, host: &Text, port: u16) -> Result<Self::Peer, OpenFault>
        ensures made { IfOk result (λ p. peer_with (Self.Peer.left p) (Self.Peer.gained p) (Self.Peer.Sink.faults p) ≡ peer_held self.old) }
        ensures kept { peer_held self.new ≡ peer_held self.old }
        ensures cause { HasOpenCause (unmade self.old) (unmade self.new) result };

    /// Takes the peer back, and closes it where it is a connection. It takes no memory and never fails.
    fn peer_back(&mut self, peer: Self::Peer)
        ensures held { peer_held self.new ≡ peer_with (Self.Peer.left peer) (Self.Peer.gained peer) (Self.Peer.Sink.faults peer) }
        ensures kept { unmade self.new ≡ unmade self.old };
}

/// Makes connections over the network, as [`connect`] does. It tells nothing of what they carry.
#[derive(Drop)]
pub struct NetMakers<R> {
    net: R,
    peer: u64,
    unmade: u64,
}

impl<R> NetMakers<R> {
    /// What connects over this network, with no fault yet.
    pub fn new(net: R) -> Self
        ensures { result ≡ record { net = net; peer = 0; unmade = 0 } }
    {
        NetMakers {
            net,
            peer: 0,
            unmade: 0,
        }
    }
}

impl<R: Net + Drop> Makers for NetMakers<R> {
    ghost use Rattle.std.specs.Prelude.{None};

    type Peer = Connection<R::Stream>;

    ghost peer_held = { λ m. peer_with None None m.peer };

    ghost unmade = { λ m. m.unmade };

    fn peer(&mut self, host: &Text, port: u16) -> Result<Connection<R::Stream>, OpenFault> {
        let mut faults = self.peer;
        match connect(&self.net, host.as_str(), port, &mut faults) {
            Ok(peer) => Ok(peer),
            Err(Failed) => {
                self.unmade = self.unmade.saturating_add(1);
                Err(OpenFault::Failed)
            }
        }
    }

    fn peer_back(&mut self, peer: Connection<R::Stream>) {
        self.peer = peer.faults();
    }
}

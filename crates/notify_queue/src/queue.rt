//! The queue.
ghost use Rattle.std.specs.Prelude.{◌≡◌, ◌<◌, ◌*◌, IfOk, IfSome, IsSome, slice_get};
ghost use Rattle.notify_queue.specs.Queue as spec;

use crate::links::Links;
use crate::pair::{ACTIONS, Pair, pair_at, place_of};
use doc_tree::NoMemory;
use std::alloc::Global;
use std::marker::Model;

/// A queue of pairs of so many resources, in which each pair is queued once at most. Contracts see the pairs that were
/// ever queued, in order, how many of them were taken, and how many resources there are.
#[derive(Drop)]
pub struct Queue {
    resources: usize,
    links: Links,
    taken: usize,
}

impl Model for Queue {
    ghost use Rattle.notify_queue.specs.Queue.{Queued};

    ghost Value = { Queued };

    ghost use Rattle.notify_queue.specs.Kept.{queued_in, IsKept};

    ghost view = { λ q. queued_in q.links q.taken q.resources };

    ghost invariant = { λ q. IsKept q.links q.taken q.resources };
}

impl Queue {
    /// An empty queue of pairs of this many resources.
    pub fn make(alloc: Global, resources: usize) -> Result<Queue, NoMemory>
        ensures { IfOk result (λ queue. queue ≡ spec.empty resources) }
    {
        let Some(places) = resources.checked_mul(ACTIONS) else {
            return Err(NoMemory);
        };
        Ok(Queue {
            resources,
            links: Links::make(alloc, places)?,
            taken: 0,
        })
    }

    /// Queues a pair behind all others. A pair that was ever queued, taken or not, is passed over.
    pub fn queue(&mut self, pair: Pair)
        requires resource { pair.resource < self.old.resources }
        requires action { pair.action < 4 }
        ensures { self.new ≡ spec.queue pair self.old }
    {
        self.links.link(place_of(pair));
    }

    /// Takes the pair that was queued first of those that wait, or nothing where none waits.
    pub fn next(&mut self) -> Option<Pair>
        ensures value { result ≡ slice_get self.old.ever self.old.taken }
        ensures after { self.new ≡ spec.next self.old }
        ensures within { IfSome result (λ pair. spec.IsWithin self.old.resources pair) }
        ensures bound { IsSome result → self.old.taken < 4 * self.old.resources }
    {
        match self.links.take() {
            None => None,
            Some(place) => {
                self.taken += 1;
                Some(pair_at(place))
            }
        }
    }
}

//! The requests of a demo, one by one.
ghost use Rattle.std.specs.Prelude.{◌≡◌, ◌+◌, ◌-◌, ◌*◌, ◌<◌, ◌≤◌, IfOk, OnOk, OnErr, drop, length, slice_get};
ghost use Rattle.demo_requests.specs.Draws.{state_after};
ghost use Rattle.demo_requests.specs.DemoRequests as spec;

use crate::draws::Draws;
use crate::requests::{creation, turn_request};
use crate::turns::next_turn;
use doc_tree::NoMemory;
use org_requests::Request;
use std::alloc::Global;
use std::marker::Model;

/// The requests of a demo that are still to come. Contracts see the list of them, of which one at a time is
/// made.
#[derive(Drop)]
pub struct Demo {
    size: u64,
    made: u64,
    left: u64,
    draws: Draws,
}

impl Model for Demo {
    ghost use Rattle.std.specs.Prelude.{◌≡◌, ◌+◌, ◌-◌, ◌*◌, ◌≤◌, List};
    ghost use Rattle.org_requests.specs.declared.requests.Request.{Request};
    ghost use Rattle.std.specs.Coded.{coded_list};
    ghost use Rattle.org_requests.specs.contracts.requests.Request as request_type;

    ghost Value = { List Request };

    ghost coded = { coded_list request_type.the_row.coded };

    ghost use Rattle.demo_requests.specs.Draws.{state_after};
    ghost use Rattle.demo_requests.specs.DemoRequests.{requests, length_of};

    ghost view = { λ demo. requests demo.size demo.made demo.left };

    ghost invariant = { λ demo. (demo.size ≤ 200) × (demo.made + demo.left ≡ length_of demo.size) × (demo.draws.state ≡ state_after demo.size (4 * (demo.made - demo.size))) };
}

impl Demo {
    /// The requests of a demo of this size: 101 for each of so many organisations. It takes no memory.
    #[tactic(auto, using(crate::proofs::RequestLemmas::so_many))]
    pub fn of(size: u64) -> Demo
        requires { size ≤ 200 }
        ensures requests { result ≡ spec.demo_requests size }
        ensures count { length result ≡ 101 * size }
    {
        Demo {
            size,
            made: 0,
            left: 101 * size,
            draws: Draws::from(size),
        }
    }

    /// Takes the next request, or `None` exactly behind the last. After an error it is still to come.
    pub fn next(&mut self, alloc: Global) -> Result<Option<Request>, NoMemory>
        ensures next { IfOk result (λ next. next ≡ slice_get self.old 0) }
        ensures rest { OnOk result (self.new ≡ drop 1 self.old) }
        ensures failed { OnErr result (self.new ≡ self.old) }
    {
        if self.left == 0 {
            return Ok(None);
        }
        let mut draws = self.draws;
        let request = nth(alloc, self.size, self.made, &mut draws)?;
        self.draws = draws;
        self.made += 1;
        self.left -= 1;
        Ok(Some(request))
    }
}

// The request behind so many others in a demo of this size. A turn takes its four draws.
fn nth(alloc: Global, size: u64, number: u64, draws: &mut Draws) -> Result<Request, NoMemory>
    requires size { (0 < size) × (size ≤ 200) }
    requires number { number < spec.length_of size }
    requires draws { draws.old.state ≡ state_after size (4 * (number - size)) }
    ensures request { IfOk result (λ request. request ≡ spec.request size number) }
    ensures draws { OnOk result (draws.new.state ≡ state_after size (4 * (number + 1 - size))) }
{
    if number < size {
        creation(alloc, number + 1)
    } else {
        turn_request(alloc, next_turn(draws, size))
    }
}

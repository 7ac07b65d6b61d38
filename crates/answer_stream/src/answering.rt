//! What answers the requests of a stream.

ghost use Rattle.org_requests.specs.Requests.{IsRead};
ghost use Rattle.org_requests.specs.declared.replies.Reply.{Reply};
ghost use Rattle.org_requests.specs.declared.requests.Request.{Request};

use doc_tree::Steps;
use org_requests::{Reply, Request};
use std::alloc::Global;
use std::sync::ledger::Ledger;

/// What answers the requests of a stream, as the shards of a site.
///
/// What is said of it is said of one request: that this reply to it leads from this value to that one. The value is what
/// answers, and not all that it looks at: where it stands for a site that it shares with others, what these do between
/// two requests changes the site and not the value, so nothing said here keeps the site as it was meanwhile.
pub trait Answering {
    /// From the first value, this reply to this request leads to the second.
    ghost answers: { Self → Request → Reply → Self → Type 0 };

    /// Answers one request. One whose parts found no memory stands for whatever its bytes spell. Each body that is
    /// looked at is one step.
    fn answer<L: Ledger>(&mut self, alloc: Global, request: Request, steps: &mut Steps<L>) -> Reply
        ensures { (spelled : Request) → IsRead request spelled → answers self.old spelled result self.new };
}

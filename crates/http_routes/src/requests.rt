//! A whole request, from its head and then its body.
ghost use Rattle.http_routes.specs.Bodies as bodies;
ghost use Rattle.http_routes.specs.Connections.{closes};
ghost use Rattle.http_routes.specs.Headers.{Stands};
ghost use Rattle.http_routes.specs.Requests.{head_in, request_with};
ghost use Rattle.std.specs.Prelude.{◌≡◌, ℕ, List, IfOk};

use crate::bodies::{BodyForm, form_in};
use crate::headers::{HeaderValue, api_of, caller_of};
use crate::parameters::parameters_of;
use crate::places::{place_of, place_with};
use crate::router::Routes;
use crate::targets::segments_of;
use crate::verbs::verb_of;
use doc_tree::NoMemory;
use org_requests::{Body, Request};
use std::alloc::Global;

/// What the head of a message says of its request: all but the body, by which a POST to
/// `/organizations` finds the organisation that it is of.
#[derive(Drop)]
pub struct Head {
    request: Request,
}

impl Head {
    /// Reads a head, by the table of routes: its method, its target, what it has of the headers
    /// `X-Ops-UserId` and `X-Ops-Server-API-Version`, and whether its `Connection` headers list the
    /// option `close`. Only memory can be missing: each message has a head.
    pub fn read(
        alloc: Global,
        routes: &Routes,
        method: &[u8],
        target: &[u8],
        caller: HeaderValue<'_>,
        version: HeaderValue<'_>,
        close: bool,
    ) -> Result<Head, NoMemory>
        ensures { (callers versions connections : List (List ℕ)) → Stands caller.entry callers
            → Stands version.entry versions → close ≡ closes connections
            → IfOk result (λ head. head.request ≡ head_in method.now target.now callers versions connections) }
    {
        let verb = verb_of(method);
        let caller = caller_of(alloc, caller)?;
        let parameters = parameters_of(alloc, target)?;
        let place = place_of(alloc, routes, segments_of(alloc, target)?, verb)?;
        Ok(Head {
            request: Request {
                caller,
                api: api_of(version),
                verb,
                place,
                parameters,
                body: Body::Empty,
                close,
            },
        })
    }

    /// The form in which the body of this head is read.
    pub fn body_form(&self) -> BodyForm
        ensures { result ≡ bodies.form_in self.now.request }
    {
        form_in(&self.request)
    }

    /// The request of this head and its body.
    pub fn with_body(self, alloc: Global, body: Body) -> Result<Request, NoMemory>
        ensures { IfOk result (λ request. request ≡ request_with self.request body) }
    {
        with_body(alloc, self.request, body)
    }
}

fn with_body(alloc: Global, head: Request, body: Body) -> Result<Request, NoMemory>
    ensures { IfOk result (λ request. request ≡ request_with head body) }
{
    let Request {
        caller,
        api,
        verb,
        place,
        parameters,
        body: _,
        close,
    } = head;
    Ok(Request {
        caller,
        api,
        verb,
        place: place_with(alloc, place, verb, &body)?,
        parameters,
        body,
        close,
    })
}

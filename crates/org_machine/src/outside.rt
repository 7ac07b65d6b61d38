//! Answering what is of no organisation.

ghost use Rattle.std.specs.Prelude.{◌≡◌, ◌&&◌, false, IfOk, None};
ghost use Rattle.doc_tree.specs.Valid.{InOrder};
ghost use Rattle.org_core.specs.FullStates.{none};
ghost use Rattle.org_requests.specs.Requests.{is_operator, org_of};
ghost use Rattle.org_machine.specs.Alone as spec;
ghost use Rattle.org_machine.specs.Alone.{States, OutsideAnswer};
ghost use Rattle.org_machine.specs.Serving.{IsOrShort};
ghost use Rattle.org_machine.specs.Steps.{at_organisations, at_place, step};
ghost use Rattle.org_core.specs.Outcomes.{outcome_of};
ghost use Rattle.org_requests.specs.Verbs.{is_get};

use crate::serving::told;
use crate::steps::unnamed;
use doc_tree::{NoMemory, Text};
use org_core::Perm;
use org_requests::{
    Body, ORGANISATIONS, Place, Refusal, Reply, Request, Verb, head_refusal, is_operator,
    out_of_memory, shown_paths,
};
use std::alloc::Global;

/// Whether the request asks for the listing of organisations: a GET of `/organizations` by the operator
/// that nothing refuses.
pub fn is_listing(request: &Request) -> bool
    ensures { result ≡ spec.is_listing request.now }
{
    match &request.place {
        Place::Organisations => {
            request.verb.is_get()
                && (is_operator(&request.caller) && head_refusal(request).is_none())
        }
        Place::Of { org: _, route: _ }
        | Place::LeftOut
        | Place::NoRoute
        | Place::NoMethod { org: _ }
        | Place::NoMemory => false,
    }
}

/// The listing of the organisations of these names, which come in the order of their bytes.
pub fn listing(alloc: Global, names: &[Text]) -> Result<Reply, NoMemory>
    requires { InOrder names.now }
    ensures { IfOk result (λ reply. reply ≡ spec.listing names.now) }
{
    shown_paths(alloc, ORGANISATIONS, names)
}

/// Answers a request of no organisation that isn't the listing: by the same reply in every state, or
/// by 500 where memory was wanting.
pub fn serve_outside(alloc: Global, request: &Request) -> Reply
    requires none { org_of request.now ≡ None }
    requires unlisted { spec.is_listing request.now ≡ false }
    ensures { (states : States) → OutsideAnswer states (org_of request.now) request.now result }
{
    match &request.place {
        Place::NoMemory => out_of_memory(),
        _ => answer(alloc, request),
    }
}

// The reply that is due in every state, or that to want of memory.
fn answer(alloc: Global, request: &Request) -> Reply
    requires none { org_of request.now ≡ None }
    requires unlisted { spec.is_listing request.now ≡ false }
    ensures { IsOrShort result (step request.now none).reply }
{
    match head_refusal(request) {
        Some(refusal) => told(alloc, refusal),
        None => answer_unrefused(alloc, request),
    }
}

// The head refuses nothing.
fn answer_unrefused(alloc: Global, request: &Request) -> Reply
    requires none { org_of request.now ≡ None }
    requires unlisted { request.now.place ≡ Place.Organisations → (is_get request.now.verb && is_operator request.now.caller) ≡ false }
    ensures { IsOrShort result (outcome_of (at_place request.now.place request.now none).answer).reply }
{
    match &request.place {
        Place::Of { org: _, route: _ } => unreachable!(),
        Place::Organisations => at_organisations(alloc, request),
        Place::LeftOut | Place::NoMemory => told(alloc, Refusal::NotImplemented),
        Place::NoRoute => told(alloc, Refusal::NotFound),
        Place::NoMethod { org: _ } => told(alloc, Refusal::NotAllowed),
    }
}

// A request to `/organizations` that isn't the listing, and creates no organisation.
fn at_organisations(alloc: Global, request: &Request) -> Reply
    requires { (is_get request.now.verb && is_operator request.now.caller) ≡ false }
    ensures { IsOrShort result (outcome_of (at_organisations request.now.caller request.now.verb request.now.body).answer).reply }
{
    match request.verb {
        Verb::Get => told(alloc, Refusal::Forbidden(Perm::Read)),
        Verb::Post => match unnamed(alloc, &request.body) {
            Ok(refusal) => told(alloc, refusal),
            Err(NoMemory) => out_of_memory(),
        },
        Verb::Put | Verb::Delete | Verb::Other => told(alloc, Refusal::NotAllowed),
    }
}

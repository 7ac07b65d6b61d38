//! The tree of a body, or why there is none.

ghost use Rattle.std.specs.Prelude.{◌≡◌};
ghost use Rattle.std.specs.Result.{result_map_both};
ghost use Rattle.doc_tree.specs.Tree.{doc_of};
ghost use Rattle.org_requests.specs.Documents as spec;

use crate::refusals::Refusal;
use crate::requests::{BadBody, Body};
use doc_tree::Tree;

/// The tree of a body; or 400, by the fault of its text, also of a body that is missing or
/// wasn't read as text; or 413.
pub fn document_in(body: &Body) -> Result<&Tree, Refusal>
    ensures { result_map_both (λ t. doc_of t.now) (λ refusal. refusal) result ≡ spec.document_in body.now }
{
    match body {
        Body::Doc(tree) => Ok(tree),
        Body::Bad(fault) => Err(unreadable(*fault)),
        Body::Empty | Body::Raw(_) => Err(Refusal::NotJson),
        Body::TooLong => Err(Refusal::TooLarge),
    }
}

fn unreadable(fault: BadBody) -> Refusal
    ensures { result ≡ spec.unreadable fault }
{
    match fault {
        BadBody::NotJson => Refusal::NotJson,
        BadBody::TooDeep => Refusal::TooDeep,
        BadBody::NotWhole => Refusal::NotWhole,
    }
}

/// The refusal of a body that is for what nobody can have made: it has only to be readable, and then
/// nothing is there.
pub fn absent(body: &Body) -> Refusal
    ensures { result ≡ spec.absent (spec.document_in body.now) }
{
    match document_in(body) {
        Ok(_) => Refusal::NotFound,
        Err(refusal) => refusal,
    }
}

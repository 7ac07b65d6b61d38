//! How the body of a request is read: by its place and its method, once its head is known.
ghost use Rattle.doc_tree.specs.Read.{reads};
ghost use Rattle.http_routes.specs.Bodies as spec;
ghost use Rattle.http_routes.specs.declared.bodies.BodyForm.TheVariants.{Json, Raw};
ghost use Rattle.std.specs.Prelude.{◌≡◌, IfOk, cond};

use crate::places::is_creation;
use doc_tree::{Bytes, NoMemory, ReadFault, read_json};
use org_requests::routes::{CookbookRoute, Route};
use org_requests::{BadBody, Body, Place, Request, Verb, head_refusal};
use sandboxes::Hashed;
use std::alloc::Global;

/// The form in which the bytes of a body are read.
#[derive(Clone, Copy, Debug, PartialEq, Eq)]
pub enum BodyForm {
    /// They aren't looked at.
    Dropped,
    /// They are JSON.
    Json,
    /// They are a file.
    Raw,
}

/// The form of the body behind a head, which is a request without a body. It is dropped where the
/// head alone refuses the request, but for a POST to `/organizations`, whose body tells whose
/// request it is.
pub(crate) fn form_in(head: &Request) -> BodyForm
    ensures { result ≡ spec.form_in head.now }
{
    if is_looked_at(head) {
        form_at(&head.place, head.verb)
    } else {
        BodyForm::Dropped
    }
}

fn is_looked_at(head: &Request) -> bool
    ensures { result ≡ spec.is_looked_at head.now }
{
    is_creation(&head.place, head.verb) || head_refusal(head).is_none()
}

// The form of a body by place and method.
fn form_at(place: &Place, verb: Verb) -> BodyForm
    ensures { result ≡ spec.form_at place.now verb }
{
    match verb {
        Verb::Post => BodyForm::Json,
        Verb::Put => form_put(is_file(place)),
        Verb::Get | Verb::Delete | Verb::Other => BodyForm::Dropped,
    }
}

fn form_put(is_file: bool) -> BodyForm
    ensures { result ≡ cond is_file Raw Json }
{
    if is_file {
        BodyForm::Raw
    } else {
        BodyForm::Json
    }
}

// The place is that of a file.
fn is_file(place: &Place) -> bool
    ensures { result ≡ spec.is_file place.now }
{
    matches!(
        place,
        Place::Of {
            org: _,
            route: Route::Cookbooks(CookbookRoute::File(_)),
        }
    )
}

/// A body of at most 4,194,304 bytes, by its form. Of a longer one the caller makes `Body::TooLong`,
/// whatever its bytes. `Body::Bad` holds the first fault of the JSON. The bytes of a file are moved, and
/// hashed once.
pub fn body_of(alloc: Global, form: BodyForm, bytes: Vec<u8>) -> Result<Body, NoMemory>
    ensures { IfOk result (λ body. body ≡ spec.short_body form bytes.items) }
{
    match form {
        BodyForm::Dropped => Ok(Body::Empty),
        BodyForm::Json => body_from(alloc, bytes.as_slice()),
        BodyForm::Raw => Ok(Body::Raw(Hashed::of(Bytes::of(bytes)))),
    }
}

// Apart, since the frame of a reader of JSON is large, and a request without a body needn't pay for it.
#[inline(never)]
fn body_from(alloc: Global, bytes: &[u8]) -> Result<Body, NoMemory>
    ensures { IfOk result (λ body. body ≡ spec.body_from (reads bytes.now)) }
{
    match read_json(alloc, bytes) {
        Ok(tree) => Ok(Body::Doc(tree)),
        Err(ReadFault::NotJson) => Ok(Body::Bad(BadBody::NotJson)),
        Err(ReadFault::TooDeep) => Ok(Body::Bad(BadBody::TooDeep)),
        Err(ReadFault::NotWhole) => Ok(Body::Bad(BadBody::NotWhole)),
        Err(ReadFault::NoMemory) => Err(NoMemory),
    }
}

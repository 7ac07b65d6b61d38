//! What the head of a request alone refuses.

ghost use Rattle.std.specs.Prelude.{◌≡◌};
ghost use Rattle.org_requests.specs.Heads as spec;

use crate::refusals::Refusal;
use crate::requests::{Place, Request};

/// The first refusal of a request that its head alone gives, and a body that is too long: 413, 406, 501,
/// 404 where no route has the path, and 405, in this order. Nothing else of the body is looked at, and
/// no state. It takes no memory.
pub fn head_refusal(request: &Request) -> Option<Refusal>
    ensures { result ≡ spec.head_refusal request.now }
{
    if request.body.is_too_long() {
        return Some(Refusal::TooLarge);
    }
    if !is_taken(request.api) {
        return Some(Refusal::VersionNotTaken);
    }
    if is_left_out(&request.place) {
        return Some(Refusal::NotImplemented);
    }
    if is_no_route(&request.place) {
        return Some(Refusal::NotFound);
    }
    if is_no_method(&request.place) {
        return Some(Refusal::NotAllowed);
    }
    None
}

/// Whether the version of the API is 0 or 1.
fn is_taken(api: Option<u8>) -> bool
    ensures { result ≡ spec.is_taken api }
{
    match api {
        None => false,
        Some(version) => version <= 1,
    }
}

fn is_left_out(place: &Place) -> bool
    ensures { result ≡ spec.is_left_out place.now }
{
    matches!(place, Place::LeftOut)
}

fn is_no_route(place: &Place) -> bool
    ensures { result ≡ spec.is_no_route place.now }
{
    matches!(place, Place::NoRoute)
}

fn is_no_method(place: &Place) -> bool
    ensures { result ≡ spec.is_no_method place.now }
{
    matches!(place, Place::NoMethod { org: _ })
}

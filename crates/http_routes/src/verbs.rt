//! The methods that routes have.
ghost use Rattle.http_routes.specs.Verbs.{verb_named};
ghost use Rattle.std.specs.Prelude.{◌≡◌, bytes_eq};

use http::Method;
use org_requests::Verb;

/// The verb that a method stands for. Methods are case-sensitive: `get` is `Verb::Other`.
pub fn verb_of(method: &[u8]) -> Verb
    ensures { result ≡ verb_named method.now }
{
    if is(method, &Method::GET) {
        Verb::Get
    } else if is(method, &Method::POST) {
        Verb::Post
    } else if is(method, &Method::PUT) {
        Verb::Put
    } else if is(method, &Method::DELETE) {
        Verb::Delete
    } else {
        Verb::Other
    }
}

fn is(method: &[u8], named: &Method) -> bool
    ensures { result ≡ bytes_eq method.now named.now }
{
    method == named.as_str().as_bytes()
}

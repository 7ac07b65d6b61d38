//! The paths that are left out.
ghost use Rattle.std.specs.Prelude.{◌≡◌, ◌||◌, ◌&&◌, bytes_eq, codes};
ghost use Rattle.org_requests.specs.LeftOut as spec;

use doc_tree::Text;

/// Whether a path is left out, by its segments: `/users`, `/authenticate_user`, and below
/// `/organizations/ORG` the paths `association_requests`, `principals` and `required_recipe`, each
/// with or without further segments.
pub fn is_left_out(segments: &[Text]) -> bool
    ensures { result ≡ spec.is_left_out segments.now }
{
    match segments {
        [] => false,
        [first, _, third, ..] => is_left_out_within(first, third),
        [first, ..] => is_left_out_first(first),
    }
}

// Whether all paths that begin so are left out.
fn is_left_out_first(first: &Text) -> bool
    ensures { result ≡ (bytes_eq (codes "users") first.now || bytes_eq (codes "authenticate_user") first.now) }
{
    is(first, "users") || is(first, "authenticate_user")
}

// Whether all paths are left out that begin so and go on so below the second segment.
fn is_left_out_within(first: &Text, third: &Text) -> bool
    ensures { result ≡ ((bytes_eq (codes "users") first.now || bytes_eq (codes "authenticate_user") first.now)
        || (bytes_eq (codes "organizations") first.now
        && (bytes_eq (codes "association_requests") third.now
        || (bytes_eq (codes "principals") third.now || bytes_eq (codes "required_recipe") third.now)))) }
{
    is_left_out_first(first) || (is(first, "organizations") && is_left_out_third(third))
}

// Whether all paths that go on so below an organisation are left out.
fn is_left_out_third(third: &Text) -> bool
    ensures { result ≡ (bytes_eq (codes "association_requests") third.now
        || (bytes_eq (codes "principals") third.now || bytes_eq (codes "required_recipe") third.now)) }
{
    is(third, "association_requests") || is(third, "principals") || is(third, "required_recipe")
}

fn is(segment: &Text, text: &str) -> bool
    ensures { result ≡ bytes_eq text.now segment.now }
{
    text == segment.as_str()
}

//! The targets of requests (RFC 9112, section 3.2.1; RFC 3986, sections 2 and 3).

ghost use Rattle.std.specs.Prelude.{◌≡◌, ◌++◌, ◌∷◌, [], IfOk, OnOk, codes, map, string_bytes};
ghost use Rattle.percent_encoding.specs.Iter.{encoded_text};
ghost use Rattle.form_urlencoded.specs.Form.{append_pair};
ghost use Rattle.knife_errands.specs.Targets as spec;

use crate::errands::{Kind, Listing, Thing};
use doc_tree::{NoMemory, Text};
use form_urlencoded::Serializer;
use peer_wire::Whom;
use percent_encoding::{AsciiSet, NON_ALPHANUMERIC, PercentEncode, ascii_set, utf8_percent_encode};
use std::alloc::Global;

// The ASCII bytes that a name in a target doesn't keep.
const IN_NAMES: AsciiSet = ascii_set!(
    NON_ALPHANUMERIC
        .remove(b'_')
        .remove(b'-')
        .remove(b'.')
        .remove(b':')
);

// The ASCII bytes that a target may not have.
const IN_TARGETS: AsciiSet = ascii_set!(
    IN_NAMES
        .remove(b'~')
        .remove(b'!')
        .remove(b'$')
        .remove(b'&')
        .remove(b'\'')
        .remove(b'(')
        .remove(b')')
        .remove(b'*')
        .remove(b'+')
        .remove(b',')
        .remove(b';')
        .remove(b'=')
        .remove(b'@')
        .remove(b'/')
        .remove(b'?')
        .remove(b'%')
);

/// The target of what stands in the organisation below these names.
pub(crate) fn target(alloc: Global, whom: &Whom, names: &[&str]) -> Result<Text, NoMemory>
    ensures { IfOk result (λ target. target ≡ spec.target whom.now (map (λ name. name.now) names.now)) }
{
    Ok(Text::of(target_with(alloc, whom, names)?))
}

fn target_with(alloc: Global, whom: &Whom, names: &[&str]) -> Result<String, NoMemory>
    ensures { IfOk result (λ target. string_bytes target ≡ spec.target whom.now (map (λ name. name.now) names.now)) }
{
    let mut target = String::new(alloc);
    push_name(&mut target, "organizations")?;
    push_name(&mut target, whom.org.as_str())?;
    for name in names {
        push_name(&mut target, name)?;
    }
    Ok(target)
}

fn push_name(target: &mut String, name: &str) -> Result<(), NoMemory>
    ensures { OnOk result (string_bytes target.new ≡ string_bytes target.old ++ spec.named name.now) }
{
    target.push_str("/")?;
    name_encoded(name).append_to(target)?;
    Ok(())
}

fn name_encoded(name: &str) -> PercentEncode<'_>
    ensures { encoded_text result ≡ spec.encoded spec.is_kept_in_name name.now }
{
    utf8_percent_encode(name, IN_NAMES)
}

/// The target of what stands in the organisation below two names.
pub(crate) fn target_of_two<'a>(
    alloc: Global,
    whom: &Whom,
    first: &'a str,
    second: &'a str,
) -> Result<Text, NoMemory>
    ensures { IfOk result (λ target. target ≡ spec.target whom.now (first.now ∷ second.now ∷ [])) }
{
    target(alloc, whom, &[first, second])
}

fn target_of_three<'a>(
    alloc: Global,
    whom: &Whom,
    first: &'a str,
    second: &'a str,
    third: &'a str,
) -> Result<Text, NoMemory>
    ensures { IfOk result (λ target. target ≡ spec.target whom.now (first.now ∷ second.now ∷ third.now ∷ [])) }
{
    target(alloc, whom, &[first, second, third])
}

/// The target of a listing.
pub(crate) fn listing_target(
    alloc: Global,
    whom: &Whom,
    listing: &Listing,
) -> Result<Text, NoMemory>
    ensures { IfOk result (λ target. target ≡ spec.target whom.now (spec.place_of_listing listing.now)) }
{
    match listing {
        Listing::Of(kind) => target(alloc, whom, &[kind.collection()]),
        Listing::Bag(name) => target_of_two(alloc, whom, Kind::DataBag.collection(), name.as_str()),
        Listing::Users => target(alloc, whom, &["users"]),
        Listing::Cookbooks => target(alloc, whom, &["cookbooks"]),
    }
}

/// The target of a thing.
pub(crate) fn thing_target(alloc: Global, whom: &Whom, thing: &Thing) -> Result<Text, NoMemory>
    ensures { IfOk result (λ target. target ≡ spec.target whom.now (spec.place_of thing.now)) }
{
    match thing {
        Thing::Named(kind, name) => target_of_two(alloc, whom, kind.collection(), name.as_str()),
        Thing::Item { bag, id } => {
            target_of_three(
                alloc,
                whom,
                Kind::DataBag.collection(),
                bag.as_str(),
                id.as_str(),
            )
        }
        Thing::Cookbook { name, version } => {
            target_of_three(alloc, whom, "cookbooks", name.as_str(), version.as_str())
        }
    }
}

/// The target of a search: its one parameter is the query, form-encoded.
pub(crate) fn search_target(
    alloc: Global,
    whom: &Whom,
    index: &str,
    query: &str,
) -> Result<Text, NoMemory>
    ensures { IfOk result (λ target. target ≡ spec.search_target whom.now index.now query.now) }
{
    let path = target_of_two(alloc, whom, "search", index)?;
    let parameters = parameters_of(alloc, query)?;
    Ok(Text::of(format!(in alloc; "{path}?{parameters}")?))
}

fn parameters_of(alloc: Global, query: &str) -> Result<String, NoMemory>
    ensures { IfOk result (λ text. string_bytes text ≡ append_pair [] (codes "q") query.now) }
{
    let mut form = Serializer::new(String::new(alloc));
    form.append_pair("q", query)?;
    Ok(form.finish())
}

/// The target that a path of any text is: whole where it begins with a slash, and else below the organisation.
pub(crate) fn raw_target(alloc: Global, whom: &Whom, path: &str) -> Result<Text, NoMemory>
    ensures { IfOk result (λ target. target ≡ spec.raw_target whom.now path.now) }
{
    let mut target = front_of(alloc, whom, path)?;
    path_encoded(path).append_to(&mut target)?;
    Ok(Text::of(target))
}

fn path_encoded(path: &str) -> PercentEncode<'_>
    ensures { encoded_text result ≡ spec.encoded spec.is_kept_in_target path.now }
{
    utf8_percent_encode(path, IN_TARGETS)
}

fn front_of(alloc: Global, whom: &Whom, path: &str) -> Result<String, NoMemory>
    ensures { IfOk result (λ front. string_bytes front ≡ spec.raw_front whom.now path.now) }
{
    if path.starts_with("/") {
        return Ok(String::new(alloc));
    }
    let mut front = target_with(alloc, whom, &[])?;
    front.push_str("/")?;
    Ok(front)
}

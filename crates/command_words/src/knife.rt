//! What `knife` is told by its words.

ghost use Rattle.std.specs.Prelude.{◌≡◌, IfOk, Some, None, option_map, option_copied, option_and_then};
ghost use Rattle.command_words.specs.Reading.{knife_told};
ghost use Rattle.command_words.specs.Gathering.{given_told, place_told};
ghost use Rattle.command_words.specs.Words as spec;

use crate::command::KnifeWords;
use crate::given::Given;
use crate::servers::{Place, place_in};
use doc_tree::{NoMemory, Text};
use std::alloc::Global;

/// What the words behind `knife` tell it, or `None` where they tell it nothing.
pub(crate) fn knife_words(alloc: Global, words: &[Text]) -> Result<Option<KnifeWords>, NoMemory>
    ensures { IfOk result (λ told. option_map knife_told told ≡ option_and_then spec.told_by (spec.given_in words.now)) }
{
    let mut given = Given::new(alloc);
    if given.add_all(alloc, words)? {
        return told_by(alloc, given);
    }
    Ok(None)
}

fn told_by(alloc: Global, given: Given) -> Result<Option<KnifeWords>, NoMemory>
    ensures { IfOk result (λ told. option_map knife_told told ≡ spec.told_by (given_told given)) }
{
    match place_of(alloc, given.servers.as_slice())? {
        Some(place) => told_there(alloc, place, given),
        None => Ok(None),
    }
}

fn place_of(alloc: Global, servers: &[Text]) -> Result<Option<Place>, NoMemory>
    ensures { IfOk result (λ place. option_map place_told place ≡ option_and_then spec.place_in (spec.only servers.now)) }
{
    match only(servers) {
        Some(url) => place_in(alloc, url.as_str()),
        None => Ok(None),
    }
}

fn told_there(alloc: Global, place: Place, given: Given) -> Result<Option<KnifeWords>, NoMemory>
    ensures { IfOk result (λ told. option_map knife_told told ≡ spec.told_at (place_told place) (given_told given)) }
{
    if given.words.is_empty() {
        return Ok(None);
    }
    match named(&given) {
        Some((org, user)) => {
            let org = org.copy(alloc)?;
            let user = user.copy(alloc)?;
            Ok(Some(knife_of(place, org, user, given)))
        }
        None => Ok(None),
    }
}

fn named(given: &Given) -> Option<(&Text, &Text)>
    ensures { option_map (λ names. (names.0.now, names.1.now)) result ≡ spec.named (given_told given.now) }
{
    let org = only(given.orgs.as_slice())?;
    let user = only(given.users.as_slice())?;
    Some((org, user))
}

fn knife_of(place: Place, org: Text, user: Text, given: Given) -> KnifeWords
    ensures host { result.host ≡ place.host }
    ensures port { result.port ≡ place.port }
    ensures org { result.org ≡ org }
    ensures user { result.user ≡ user }
    ensures words { result.words.items ≡ given.words.items }
{
    KnifeWords {
        host: place.host,
        port: place.port,
        org,
        user,
        words: given.words,
    }
}

fn only(values: &[Text]) -> Option<&Text>
    ensures { option_copied result ≡ spec.only values.now }
{
    match values {
        [value] => Some(value),
        _ => None,
    }
}

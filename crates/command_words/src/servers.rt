//! The server in a URL.

ghost use Rattle.std.specs.Prelude.{◌≡◌, IfOk, option_copied, option_map};
ghost use Rattle.command_words.specs.Gathering.{place_told};
ghost use Rattle.std.specs.Path.{rsplit_once};
ghost use Rattle.url.specs.Ascii.{colon};
ghost use Rattle.command_words.specs.Words as spec;

use crate::numbers::port_in;
use doc_tree::{NoMemory, Text};
use std::alloc::Global;
use url::{Host, ParseError};

/// Where a server is.
#[derive(Drop)]
pub(crate) struct Place {
    /// The host, as a URL writes it.
    pub host: Text,
    pub port: u16,
}

/// The place in a URL `http://HOST` or `http://HOST:PORT`, with nothing behind it or one `/`. `None` for any
/// other text, so for another scheme, user information, a path, a query, and a port of 0.
pub(crate) fn place_in(alloc: Global, text: &str) -> Result<Option<Place>, NoMemory>
    ensures { IfOk result (λ place. option_map place_told place ≡ spec.place_in text.now) }
{
    match behind_front(text, "http://") {
        Some(rest) => {
            let (host, port) = host_and_port(without_slash(rest));
            place_at(alloc, host, port)
        }
        None => Ok(None),
    }
}

fn behind_front<'a>(text: &'a str, front: &str) -> Option<&'a str>
    ensures { option_copied result ≡ spec.behind_front front.now text.now }
{
    text.strip_prefix(front)
}

fn without_slash(text: &str) -> &str
    ensures { result.now ≡ spec.without_slash text.now }
{
    match text.strip_suffix("/") {
        Some(rest) => rest,
        None => text,
    }
}

fn host_and_port(text: &str) -> (&str, u16)
    ensures { (result.0.now, result.1) ≡ spec.host_and_port text.now }
{
    match with_port(text) {
        Some(parts) => parts,
        None => (text, 80),
    }
}

fn with_port(text: &str) -> Option<(&str, u16)>
    ensures { option_map (λ parts. (parts.0.now, parts.1)) result ≡ spec.with_port text.now }
{
    match parted(text) {
        Some((host, port)) => match port_in(port) {
            Some(port) => Some((host, port)),
            None => None,
        },
        None => None,
    }
}

// What stands before the last `:`, and behind it.
fn parted(text: &str) -> Option<(&str, &str)>
    ensures { option_map (λ parts. (parts.0.now, parts.1.now)) result ≡ rsplit_once colon text.now }
{
    text.rsplit_once(':')
}

// A host that `url` refuses is none. It may also run out of memory, or of the 4 GB that a URL may have.
fn place_at(alloc: Global, host: &str, port: u16) -> Result<Option<Place>, NoMemory>
    ensures { IfOk result (λ place. option_map place_told place ≡ spec.place_at (host.now, port)) }
{
    match Host::parse(alloc, host) {
        Ok(host) => {
            let host = Text::of(format!(in alloc; "{host}")?);
            Ok(Some(Place { host, port }))
        }
        Err(ParseError::OutOfMemory | ParseError::Overflow) => Err(NoMemory),
        Err(_) => Ok(None),
    }
}

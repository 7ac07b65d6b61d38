//! What is printed of a reply.

ghost use Rattle.std.specs.Prelude.{◌≡◌, ◌++◌, IfOk, OnOk, codes, option_and_then, option_map, string_bytes};
ghost use Rattle.yaml_subset.specs.Written.{written};
ghost use Rattle.doc_tree.specs.Tree.{doc_of};
ghost use Rattle.knife_errands.specs.Bodies as bodies;
ghost use Rattle.knife_errands.specs.Outcomes.{TellsBody};
ghost use Rattle.knife_errands.specs.Printing as spec;
ghost use Rattle.knife_errands.specs.declared.errands.Thing.TheVariants as things;

use crate::bodies::{document_in, names_in, rows_in, total_in};
use crate::errands::{Kind, Listing, Step, Thing};
use crate::faults::BodyFault;
use doc_tree::{Bytes, NoMemory, Text, Texts, Tree};
use std::alloc::Global;
use yaml_subset::yaml_text;

/// What a step prints of the body of its reply. It is `Malformed` only where the body hasn't the form of such a reply;
/// of what nothing is printed, the body isn't looked at.
pub fn printed(alloc: Global, step: &Step, body: &Bytes) -> Result<Bytes, BodyFault>
    ensures { TellsBody result (spec.printed step.now body.now) }
{
    match printed_by(alloc, step, body.as_slice()) {
        Ok(Some(bytes)) => Ok(bytes),
        Ok(None) => Err(BodyFault::Malformed),
        Err(NoMemory) => Err(BodyFault::NoMemory),
    }
}

fn printed_by(alloc: Global, step: &Step, body: &[u8]) -> Result<Option<Bytes>, NoMemory>
    ensures { IfOk result (λ bytes. bytes ≡ spec.printed step.now body.now) }
{
    match step {
        Step::List(listing) => names_printed(alloc, listing, body),
        Step::Show(_) => shown(alloc, body),
        Step::Create(kind, name) => Ok(Some(created(alloc, *kind, name)?)),
        Step::Delete(thing) => Ok(Some(done_to(alloc, "Deleted", thing)?)),
        Step::Search { index, query: _ } => found_printed(alloc, index.as_str(), body),
        Step::Raw(_) => Ok(Some(raw(alloc, body)?)),
    }
}

fn names_printed(alloc: Global, listing: &Listing, body: &[u8]) -> Result<Option<Bytes>, NoMemory>
    ensures { IfOk result (λ bytes. bytes ≡ option_map spec.lines (option_and_then (bodies.names_in listing.now) (bodies.document_in body.now))) }
{
    match document_in(alloc, body)? {
        Some(tree) => names_of(alloc, listing, &tree),
        None => Ok(None),
    }
}

fn names_of(alloc: Global, listing: &Listing, tree: &Tree) -> Result<Option<Bytes>, NoMemory>
    ensures { IfOk result (λ bytes. bytes ≡ option_map spec.lines (bodies.names_in listing.now (doc_of tree.now))) }
{
    match names_in(alloc, listing, tree)? {
        Some(names) => Ok(Some(lines(alloc, &names)?)),
        None => Ok(None),
    }
}

/// A line of each text.
pub(crate) fn lines(alloc: Global, texts: &Texts) -> Result<Bytes, NoMemory>
    ensures { IfOk result (λ bytes. bytes ≡ spec.lines texts.now) }
{
    let mut printed = String::new(alloc);
    push_lines(&mut printed, texts)?;
    Ok(bytes_of(printed))
}

fn push_lines(printed: &mut String, texts: &Texts) -> Result<(), NoMemory>
    ensures { OnOk result (string_bytes printed.new ≡ string_bytes printed.old ++ spec.lines texts.now) }
{
    for text in texts.as_slice() {
        printed.push_str(text.as_str())?;
        printed.push_str("\n")?;
    }
    Ok(())
}

fn bytes_of(text: String) -> Bytes
    ensures { result ≡ string_bytes text }
{
    Bytes::of(text.into_bytes())
}

fn shown(alloc: Global, body: &[u8]) -> Result<Option<Bytes>, NoMemory>
    ensures { IfOk result (λ bytes. bytes ≡ option_map written (bodies.document_in body.now)) }
{
    match document_in(alloc, body)? {
        Some(tree) => Ok(Some(yaml_of(alloc, &tree)?)),
        None => Ok(None),
    }
}

fn yaml_of(alloc: Global, tree: &Tree) -> Result<Bytes, NoMemory>
    ensures { IfOk result (λ bytes. bytes ≡ written (doc_of tree.now)) }
{
    Ok(bytes_of(yaml_text(alloc, tree)?.into_string()))
}

fn created(alloc: Global, kind: Kind, name: &Text) -> Result<Bytes, NoMemory>
    ensures { IfOk result (λ bytes. bytes ≡ spec.done_to (codes "Created") (things.Named kind name.now)) }
{
    let called = bracketed(alloc, kind.word(), name.as_str())?;
    line_of(alloc, "Created", &called)
}

/// The line that tells what was done to a thing.
pub(crate) fn done_to(alloc: Global, word: &str, thing: &Thing) -> Result<Bytes, NoMemory>
    ensures { IfOk result (λ bytes. bytes ≡ spec.done_to word.now thing.now) }
{
    let called = called(alloc, thing)?;
    line_of(alloc, word, &called)
}

fn line_of(alloc: Global, word: &str, called: &str) -> Result<Bytes, NoMemory>
    ensures { IfOk result (λ bytes. bytes ≡ spec.line (word.now ++ codes " " ++ called.now)) }
{
    Ok(bytes_of(format!(in alloc; "{word} {called}\n")?))
}

fn called(alloc: Global, thing: &Thing) -> Result<String, NoMemory>
    ensures { IfOk result (λ text. string_bytes text ≡ spec.called thing.now) }
{
    match thing {
        Thing::Named(kind, name) => bracketed(alloc, kind.word(), name.as_str()),
        Thing::Item { bag, id } => {
            let name = joined(alloc, bag, "::", id)?;
            bracketed(alloc, "data_bag_item", name.as_str())
        }
        Thing::Cookbook { name, version } => {
            let name = joined(alloc, name, " version ", version)?;
            bracketed(alloc, "cookbook", name.as_str())
        }
    }
}

fn joined(alloc: Global, first: &Text, sign: &str, second: &Text) -> Result<Text, NoMemory>
    ensures { IfOk result (λ text. text ≡ first.now ++ sign.now ++ second.now) }
{
    Ok(Text::of(format!(in alloc; "{first}{sign}{second}")?))
}

fn bracketed(alloc: Global, kind: &str, name: &str) -> Result<String, NoMemory>
    ensures { IfOk result (λ text. string_bytes text ≡ spec.bracketed kind.now name.now) }
{
    Ok(format!(in alloc; "{kind}[{name}]")?)
}

fn found_printed(alloc: Global, index: &str, body: &[u8]) -> Result<Option<Bytes>, NoMemory>
    ensures { IfOk result (λ bytes. bytes ≡ option_and_then (spec.search_lines index.now) (bodies.document_in body.now)) }
{
    match document_in(alloc, body)? {
        Some(tree) => search_lines(alloc, index, &tree),
        None => Ok(None),
    }
}

fn search_lines(alloc: Global, index: &str, tree: &Tree) -> Result<Option<Bytes>, NoMemory>
    ensures { IfOk result (λ bytes. bytes ≡ spec.search_lines index.now (doc_of tree.now)) }
{
    match total_in(tree) {
        Some(total) => found_of(alloc, total, rows_in(alloc, index, tree)?),
        None => Ok(None),
    }
}

fn found_of(alloc: Global, total: u64, names: Option<Texts>) -> Result<Option<Bytes>, NoMemory>
    ensures { IfOk result (λ bytes. bytes ≡ option_map (spec.found total) names) }
{
    match names {
        Some(names) => Ok(Some(found(alloc, total, &names)?)),
        None => Ok(None),
    }
}

fn found(alloc: Global, total: u64, names: &Texts) -> Result<Bytes, NoMemory>
    ensures { IfOk result (λ bytes. bytes ≡ spec.found total names.now) }
{
    let mut printed = format!(in alloc; "{total} items found")?;
    printed.push_str("\n")?;
    push_lines(&mut printed, names)?;
    Ok(bytes_of(printed))
}

fn raw(alloc: Global, body: &[u8]) -> Result<Bytes, NoMemory>
    ensures { IfOk result (λ bytes. bytes ≡ spec.line body.now) }
{
    let mut bytes = Vec::new(alloc);
    bytes.extend_from_slice(body)?;
    bytes.push(b'\n')?;
    Ok(Bytes::of(bytes))
}

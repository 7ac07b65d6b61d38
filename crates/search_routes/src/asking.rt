//! What a request asks of an index.

ghost use Rattle.std.specs.Prelude.{◌≡◌, IfOk, Ok, option_map};
ghost use Rattle.doc_tree.specs.Tree.{doc_of};
ghost use Rattle.org_requests.specs.Documents as bodies;
ghost use Rattle.org_requests.specs.Refusals.{Tells};
ghost use Rattle.search_routes.specs.Readings.{read_as};
ghost use Rattle.search_routes.specs.SearchRules as rules;
ghost use Rattle.search_routes.specs.Searches as spec;

use crate::operations::{Asked, Search, SearchOperation};
use doc_tree::{Name, NoMemory, Text, Tree};
use org_requests::{
    Body, Parameter, Refusal, Stop, Verb, absent, asked_for, document_in, number_in,
};
use query_text::{Query, QueryFault, read_query};
use search_query::{Partial, PartialFault};
use std::alloc::Global;

/// What is asked of all indexes.
pub(crate) fn indexes_asked(verb: Verb) -> Result<SearchOperation, Stop>
    ensures { Tells result (rules.indexes_asked verb) }
{
    match verb {
        Verb::Get => Ok(SearchOperation::ListIndexes),
        Verb::Post | Verb::Put | Verb::Delete | Verb::Other => {
            Err(Stop::Refused(Refusal::NotAllowed))
        }
    }
}

/// What is asked of the index of this word.
pub(crate) fn index_asked(
    alloc: Global,
    word: &Text,
    verb: Verb,
    parameters: &[Parameter],
    body: &Body,
) -> Result<SearchOperation, Stop>
    ensures { Tells result (rules.index_asked word.now verb parameters.now body.now) }
{
    match verb {
        Verb::Get => finding(alloc, word, parameters),
        Verb::Post => finding_parts(alloc, word, parameters, body),
        Verb::Put | Verb::Delete | Verb::Other => Err(Stop::Refused(Refusal::NotAllowed)),
    }
}

// A search that shows whole objects.
fn finding(alloc: Global, word: &Text, parameters: &[Parameter]) -> Result<SearchOperation, Stop>
    ensures { Tells result (spec.finding (spec.name_in word.now) (spec.asked_in parameters.now)) }
{
    let asked = asked_in(alloc, parameters)?;
    match name_in(alloc, word)? {
        Some(index) => Ok(SearchOperation::Find(Search {
            index,
            asked,
            partial: None,
        })),
        None => Err(Stop::Refused(Refusal::NotFound)),
    }
}

// A search that shows the keys of its body, which is looked at behind the parameters.
fn finding_parts(
    alloc: Global,
    word: &Text,
    parameters: &[Parameter],
    body: &Body,
) -> Result<SearchOperation, Stop>
    ensures { Tells result (spec.finding_parts (spec.name_in word.now) (spec.asked_in parameters.now) (bodies.document_in body.now)) }
{
    let asked = asked_in(alloc, parameters)?;
    match name_in(alloc, word)? {
        Some(index) => finding_keys(alloc, index, asked, body),
        None => Err(Stop::Refused(absent(body))),
    }
}

fn finding_keys(
    alloc: Global,
    index: Name,
    asked: Asked,
    body: &Body,
) -> Result<SearchOperation, Stop>
    ensures { Tells result (spec.finding_keys index asked (spec.partial_in (bodies.document_in body.now))) }
{
    let partial = partial_in(alloc, body)?;
    Ok(SearchOperation::Find(Search {
        index,
        asked,
        partial: Some(partial),
    }))
}

// The name that a segment of a path is, if it has a name's form.
fn name_in(alloc: Global, text: &Text) -> Result<Option<Name>, NoMemory>
    ensures { IfOk result (λ name. name ≡ spec.name_in text.now) }
{
    Ok(Name::of(text.copy(alloc)?).ok())
}

// What the parameters ask for, or the first of them that hasn't its form.
fn asked_in(alloc: Global, parameters: &[Parameter]) -> Result<Asked, Stop>
    ensures { Tells result (spec.asked_in parameters.now) }
{
    let query = query_asked(alloc, parameters)?;
    let start = number_asked(alloc, "start", 0, parameters)?;
    let rows = number_asked(alloc, "rows", 1000, parameters)?;
    Ok(Asked { query, start, rows })
}

fn query_asked(alloc: Global, parameters: &[Parameter]) -> Result<Query, Stop>
    ensures { Tells result (spec.query_asked parameters.now) }
{
    match asked_for("q", parameters) {
        Some(text) => query_in(alloc, text),
        None => query_in(alloc, &Text::from_str(alloc, "*:*")?),
    }
}

fn query_in(alloc: Global, text: &Text) -> Result<Query, Stop>
    ensures { Tells result (spec.or_bad_query (read_as text.now)) }
{
    match read_query(alloc, text) {
        Ok(query) => Ok(query),
        Err(QueryFault::NotAQuery { place }) => Err(Stop::Refused(Refusal::BadQuery(place))),
        Err(QueryFault::NoMemory) => Err(Stop::NoMemory),
    }
}

// The number of the parameter of this name, and another where there is none.
fn number_asked(
    alloc: Global,
    name: &str,
    other: u32,
    parameters: &[Parameter],
) -> Result<u32, Stop>
    ensures { Tells result (spec.number_asked name.now other parameters.now) }
{
    match number_given(other, asked_for(name, parameters)) {
        Some(number) => Ok(number),
        None => Err(Stop::Refused(Refusal::BadParameter(Text::from_str(alloc, name)?))),
    }
}

fn number_given(other: u32, value: Option<&Text>) -> Option<u32>
    ensures { result ≡ spec.number_given other (option_map (λ t. t.now) value.entry) }
{
    match value {
        None => Some(other),
        Some(text) => within_limit(number_in(text.as_str())?),
    }
}

fn within_limit(number: u64) -> Option<u32>
    ensures { result ≡ spec.within_limit number }
{
    u32::try_from(number).ok()
}

// The keys that a body asks for.
fn partial_in(alloc: Global, body: &Body) -> Result<Partial, Stop>
    ensures { Tells result (spec.partial_in (bodies.document_in body.now)) }
{
    match document_in(body) {
        Ok(tree) => partial_of(alloc, tree),
        Err(refusal) => Err(Stop::Refused(refusal)),
    }
}

fn partial_of(alloc: Global, tree: &Tree) -> Result<Partial, Stop>
    ensures { Tells result (spec.partial_in (Ok (doc_of tree.now))) }
{
    match Partial::read(alloc, tree) {
        Ok(partial) => Ok(partial),
        Err(PartialFault::BadField(field)) => Err(Stop::Refused(Refusal::BadField(field))),
        Err(PartialFault::NoMemory) => Err(Stop::NoMemory),
    }
}

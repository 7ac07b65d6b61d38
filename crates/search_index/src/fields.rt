//! The objects with a wanted value at a field.
ghost use Rattle.std.specs.Prelude.{◌↔◌, ℕ, IfOk, IsTrue};
ghost use Rattle.search_index.specs.Found.{has, is_in};
ghost use Rattle.search_index.specs.Seeking.{Gives, HasGiven};

use crate::bounds::{bounds_of, is_one};
use crate::found::{Found, Numbers};
use crate::key::TermAt;
use crate::postings::Postings;
use crate::terms::Terms;
use doc_tree::NoMemory;
use query_text::Wanted;
use search_query::is_wanted;
use std::alloc::Global;

// Up to so many objects are looked at one by one, where it isn't known how many have what is wanted.
const FEW: usize = 1_000;

// To look at an object takes about as long as to go along so many postings.
const STEPS_OF_A_LOOK: usize = 16;

/// The objects with a wanted value at a field, among some: these are looked at one by one where that is less to do, and
/// else the terms of the field are gone through.
pub(crate) fn with_field(
    alloc: Global,
    terms: &Terms,
    postings: &Postings,
    scope: u32,
    among: &Found,
    field: &[u8],
    wanted: &Wanted,
) -> Result<Numbers, NoMemory>
    ensures { IfOk result (λ numbers. (x : ℕ) → IsTrue (has among.now x) → IsTrue (is_in numbers x) ↔ HasGiven terms.now postings.now scope field.now wanted.now x) }
{
    if !among.others
        && are_fewer(
            alloc,
            terms,
            postings,
            scope,
            among.numbers.len(),
            field,
            wanted,
        )?
    {
        of_each(alloc, terms, postings, scope, &among.numbers, field, wanted)
    } else {
        at_field(alloc, terms, postings, scope, field, wanted)
    }
}

/// Whether to look at so many objects is less to do than to go through the terms with a wanted value and their objects.
fn are_fewer(
    alloc: Global,
    terms: &Terms,
    postings: &Postings,
    scope: u32,
    count: usize,
    field: &[u8],
    wanted: &Wanted,
) -> Result<bool, NoMemory> {
    Ok(match number_of_one(alloc, terms, scope, field, wanted)? {
        Some(Some(number)) => postings.is_longer(number, count.saturating_mul(STEPS_OF_A_LOOK)),
        Some(None) => false,
        None => count <= FEW,
    })
}

/// The number of the term with the one value that is wanted, if it is there; `None` where more than one may be wanted.
pub(crate) fn number_of_one(
    alloc: Global,
    terms: &Terms,
    scope: u32,
    field: &[u8],
    wanted: &Wanted,
) -> Result<Option<Option<usize>>, NoMemory> {
    if !is_one(wanted) {
        return Ok(None);
    }
    let bounds = bounds_of(alloc, field, wanted)?;
    Ok(Some(terms.find(&TermAt {
        scope,
        field,
        value: &bounds.low,
    })))
}

/// Those of some objects that have a wanted value at a field, each looked at by itself.
fn of_each(
    alloc: Global,
    terms: &Terms,
    postings: &Postings,
    scope: u32,
    objects: &Numbers,
    field: &[u8],
    wanted: &Wanted,
) -> Result<Numbers, NoMemory>
    ensures { IfOk result (λ numbers. (x : ℕ) → IsTrue (is_in numbers x) ↔ (IsTrue (is_in objects.now x) × HasGiven terms.now postings.now scope field.now wanted.now x)) }
{
    let mut found = Vec::new(alloc);
    for object in objects.as_slice() {
        if has_given(alloc, terms, postings, scope, *object, field, wanted)? {
            found.push(*object)?;
        }
    }
    Ok(Numbers::of(found))
}

/// Whether an object has a wanted value at a field: its terms are gone through.
fn has_given(
    alloc: Global,
    terms: &Terms,
    postings: &Postings,
    scope: u32,
    object: usize,
    field: &[u8],
    wanted: &Wanted,
) -> Result<bool, NoMemory>
    ensures { IfOk result (λ has. IsTrue has ↔ HasGiven terms.now postings.now scope field.now wanted.now object) }
{
    let own = postings.terms_of(alloc, object)?;
    for term in own.as_slice() {
        if gives(terms, *term, scope, field, wanted) {
            return Ok(true);
        }
    }
    Ok(false)
}

/// The objects with a wanted value at a field: the terms of the field stand side by side, and are gone through from one
/// bound to the other.
fn at_field(
    alloc: Global,
    terms: &Terms,
    postings: &Postings,
    scope: u32,
    field: &[u8],
    wanted: &Wanted,
) -> Result<Numbers, NoMemory>
    ensures { IfOk result (λ numbers. (x : ℕ) → IsTrue (is_in numbers x) ↔ HasGiven terms.now postings.now scope field.now wanted.now x) }
{
    let bounds = bounds_of(alloc, field, wanted)?;
    let low = TermAt {
        scope,
        field,
        value: &bounds.low,
    };
    let high = TermAt {
        scope,
        field: &bounds.past,
        value: &bounds.high,
    };
    let mut found = Vec::new(alloc);
    let numbers = terms.between(alloc, &low, &high)?;
    for term in &numbers {
        if gives(terms, *term, scope, field, wanted) {
            let objects = postings.objects_of(alloc, *term)?;
            found.extend_from_slice(&objects)?;
        }
    }
    Ok(Numbers::of(found))
}

/// Whether a term is of this scope and field, with a wanted value.
fn gives(terms: &Terms, number: usize, scope: u32, field: &[u8], wanted: &Wanted) -> bool
    ensures { IsTrue result ↔ Gives terms.now scope field.now wanted.now number }
{
    match terms.get(number) {
        Some(term) => {
            term.scope == scope && term.field == field && is_wanted(wanted, term.value)
        }
        None => false,
    }
}

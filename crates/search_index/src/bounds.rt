//! Between which terms of a field those with a value that is wanted lie.
ghost use Rattle.std.specs.Prelude.{◌≡◌, ◌++◌, ◌∷◌, [], IfOk, List, ℕ};
ghost use Rattle.query_text.specs.declared.term.Wanted.TheVariants as wanted;
ghost use Rattle.search_index.specs.Bounds.{HoldsFront, IsBounded, front_of, is_plain, low_of};

use doc_tree::NoMemory;
use query_text::{Range, Sign, Wanted};
use std::alloc::Global;

/// The least term is that of the field and the value `low`; the first that is greater than all is that of `past` and
/// `high`.
#[derive(Drop)]
pub(crate) struct Bounds {
    pub(crate) low: Vec<u8>,
    pub(crate) past: Vec<u8>,
    pub(crate) high: Vec<u8>,
}

/// The bounds of the terms of a field with a value that is wanted: one term alone where that is one text, those with a fixed
/// beginning, or those of a range.
pub(crate) fn bounds_of(alloc: Global, field: &[u8], wanted: &Wanted) -> Result<Bounds, NoMemory>
    ensures { IfOk result (IsBounded field.now wanted.now) }
{
    match wanted {
        Wanted::Equal(text) => at(alloc, field, text.as_slice(), text.as_slice()),
        Wanted::Like(signs) => like(alloc, field, signs.as_slice()),
        Wanted::Between(range) => between(alloc, field, range),
    }
}

/// Whether one value alone can be wanted.
pub(crate) fn is_one(wanted: &Wanted) -> bool {
    match wanted {
        Wanted::Equal(_) => true,
        Wanted::Like(signs) => is_plain(signs.as_slice()),
        Wanted::Between(_) => false,
    }
}

/// The bounds of the values from one to another.
fn at(alloc: Global, field: &[u8], low: &[u8], high: &[u8]) -> Result<Bounds, NoMemory>
    ensures { IfOk result (λ b. (b.low.items ≡ low.now) × (b.past.items ≡ field.now) × (b.high.items ≡ high.now ++ 0 ∷ [])) }
{
    Ok(Bounds {
        low: Vec::from_slice(alloc, low)?,
        past: Vec::from_slice(alloc, field)?,
        high: with_zero(alloc, high)?,
    })
}

/// The bounds of the values from this on.
fn from(alloc: Global, field: &[u8], value: &[u8]) -> Result<Bounds, NoMemory>
    ensures { IfOk result (λ b. (b.low.items ≡ value.now) × (b.past.items ≡ field.now ++ 0 ∷ []) × (b.high.items ≡ [])) }
{
    Ok(Bounds {
        low: Vec::from_slice(alloc, value)?,
        past: with_zero(alloc, field)?,
        high: Vec::new(alloc),
    })
}

/// The least text that is greater than this.
fn with_zero(alloc: Global, text: &[u8]) -> Result<Vec<u8>, NoMemory>
    ensures { IfOk result (λ longer. longer.items ≡ text.now ++ 0 ∷ []) }
{
    let mut longer = Vec::from_slice(alloc, text)?;
    longer.push(0)?;
    Ok(longer)
}

fn like(alloc: Global, field: &[u8], signs: &[Sign]) -> Result<Bounds, NoMemory>
    ensures { IfOk result (λ b. IsBounded field.now (wanted.Like signs.now) b) }
{
    let front = front_of(alloc, signs)?;
    if is_plain(signs) {
        at(alloc, field, &front, &front)
    } else {
        begun(alloc, field, &front)
    }
}

/// The bounds of the values that begin so: up to the least text that is greater than all of them, where there is one.
fn begun(alloc: Global, field: &[u8], front: &[u8]) -> Result<Bounds, NoMemory>
    ensures { IfOk result (HoldsFront field.now front.now) }
{
    let Some(place) = front.len().checked_sub(1) else {
        return from(alloc, field, front);
    };
    let last = front[place];
    if last == u8::MAX {
        return from(alloc, field, front);
    }
    let mut high = Vec::from_slice(alloc, &front[..place])?;
    high.push(last + 1)?;
    Ok(Bounds {
        low: Vec::from_slice(alloc, front)?,
        past: Vec::from_slice(alloc, field)?,
        high,
    })
}

/// The bytes with which the signs begin.
fn front_of(alloc: Global, signs: &[Sign]) -> Result<Vec<u8>, NoMemory>
    ensures { IfOk result (λ front. front.items ≡ front_of signs.now) }
{
    let mut front = Vec::new(alloc);
    for sign in signs {
        match sign {
            Sign::Byte(byte) => front.push(*byte)?,
            _ => return Ok(front),
        }
    }
    Ok(front)
}

/// Whether the signs are bytes alone.
fn is_plain(signs: &[Sign]) -> bool
    ensures { result ≡ is_plain signs.now }
{
    for sign in signs {
        if !matches!(sign, Sign::Byte(_)) {
            return false;
        }
    }
    true
}

fn between(alloc: Global, field: &[u8], range: &Range) -> Result<Bounds, NoMemory>
    ensures { IfOk result (λ b. IsBounded field.now (wanted.Between range.now) b) }
{
    let low = low_of(range);
    match &range.high {
        Some(high) => at(alloc, field, low, high.as_slice()),
        None => from(alloc, field, low),
    }
}

/// Where a range begins: at nothing where it has no lower bound.
fn low_of(range: &Range) -> &[u8]
    ensures { result.now ≡ low_of range.now.low }
{
    match &range.low {
        Some(low) => low.as_slice(),
        None => &[],
    }
}

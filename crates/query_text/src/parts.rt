//! What was read of a term, and what one byte more makes of that.
ghost use Rattle.query_text.specs.Grammar.{closing};
ghost use Rattle.query_text.specs.Parts.{bound_end, bound_step, ended, high_end, high_more, low_end, low_more, part_step, plain_step, value_step, word_step};
ghost use Rattle.query_text.specs.declared.parts.Bound.TheVariants as bounds;
ghost use Rattle.query_text.specs.declared.parts.Part.TheVariants as variant;
ghost use Rattle.std.specs.Prelude.{◌≡◌, ◌++◌, ◌∷◌, [], IfOk, MatchResult, Some, None, if◌then◌else◌};

use crate::signs::{is_field_byte, is_word_byte};
use crate::term::{Range, Sign, Term, Wanted};
use doc_tree::{Bytes, Listed, NoMemory};
use std::alloc::Global;

/// What was read of a bound of a range.
#[derive(Drop)]
pub(crate) enum Bound {
    /// Nothing.
    Due,
    /// Bytes of a word.
    Word(Listed<u8>),
    /// The same and a `\`.
    WordEscape(Listed<u8>),
    /// A `"` and bytes.
    Quoted(Listed<u8>),
    /// The same and a `\`.
    QuotedEscape(Listed<u8>),
    /// All of it: a quoted text, or `*`, which is no bound.
    Whole(Option<Bytes>),
}

/// What was read of a term.
#[derive(Drop)]
pub(crate) enum Part {
    /// `*`.
    EveryColon,
    /// `*:`.
    EveryStar,
    /// Bytes of a field.
    Field(Listed<u8>),
    /// Bytes of a field and a `\`.
    FieldEscape(Listed<u8>),
    /// A field and `:`.
    ValueDue(Bytes),
    /// A field, a `"` and bytes.
    Quoted(Bytes, Listed<u8>),
    /// The same and a `\`.
    QuotedEscape(Bytes, Listed<u8>),
    /// A field and signs of a word.
    Word(Bytes, Listed<Sign>),
    /// The same and a `\`.
    WordEscape(Bytes, Listed<Sign>),
    /// A field, whether the ends are in the range, and what was read of the lower bound.
    Low(Bytes, bool, Bound),
    /// The same with the whole lower bound and a space: `T` is due.
    ToT(Bytes, bool, Option<Bytes>),
    /// `O` is due.
    ToO(Bytes, bool, Option<Bytes>),
    /// The space behind `TO` is due.
    ToEnd(Bytes, bool, Option<Bytes>),
    /// A field, whether the ends are in the range, the lower bound, and what was read of the upper one.
    High(Bytes, bool, Option<Bytes>, Bound),
    /// A whole term, behind which no byte of it can stand.
    Whole(Term),
}

/// Bytes with one byte more.
pub(crate) fn with_byte(bytes: Listed<u8>, byte: u8) -> Result<Listed<u8>, NoMemory>
    ensures { IfOk result (λ more. more ≡ bytes ++ byte ∷ []) }
{
    let mut bytes = bytes;
    bytes.push(byte)?;
    Ok(bytes)
}

fn with_sign(signs: Listed<Sign>, sign: Sign) -> Result<Listed<Sign>, NoMemory>
    ensures { IfOk result (λ more. more ≡ signs ++ sign ∷ []) }
{
    let mut signs = signs;
    signs.push(sign)?;
    Ok(signs)
}

/// One byte more of a bound.
fn bound_step(alloc: Global, here: Bound, byte: u8) -> Result<Option<Bound>, NoMemory>
    ensures { IfOk result (λ next. next ≡ bound_step here byte) }
{
    match here {
        Bound::Due => {
            if byte == b'*' {
                Ok(Some(Bound::Whole(None)))
            } else if byte == b'"' {
                Ok(Some(Bound::Quoted(Listed::new(alloc))))
            } else {
                plain_step(Listed::new(alloc), byte)
            }
        }
        Bound::Word(word) => plain_step(word, byte),
        Bound::WordEscape(word) => longer_word(word, byte),
        Bound::Quoted(bytes) => {
            if byte == b'"' {
                Ok(Some(Bound::Whole(Some(Bytes::of(bytes.into_vec())))))
            } else if byte == b'\\' {
                Ok(Some(Bound::QuotedEscape(bytes)))
            } else {
                longer_quoted(bytes, byte)
            }
        }
        Bound::QuotedEscape(bytes) => longer_quoted(bytes, byte),
        Bound::Whole(_) => Ok(None),
    }
}

fn plain_step(word: Listed<u8>, byte: u8) -> Result<Option<Bound>, NoMemory>
    ensures { IfOk result (λ next. next ≡ plain_step word byte) }
{
    if byte == b'\\' {
        Ok(Some(Bound::WordEscape(word)))
    } else if is_word_byte(byte) {
        longer_word(word, byte)
    } else {
        Ok(None)
    }
}

fn longer_word(word: Listed<u8>, byte: u8) -> Result<Option<Bound>, NoMemory>
    ensures { IfOk result (λ next. next ≡ bound_step (bounds.WordEscape word) byte) }
{
    Ok(Some(Bound::Word(with_byte(word, byte)?)))
}

fn longer_quoted(bytes: Listed<u8>, byte: u8) -> Result<Option<Bound>, NoMemory>
    ensures { IfOk result (λ next. next ≡ bound_step (bounds.QuotedEscape bytes) byte) }
{
    Ok(Some(Bound::Quoted(with_byte(bytes, byte)?)))
}

/// The bound, where it may end here, or else what was given.
fn bound_end(here: Bound) -> Result<Option<Bytes>, Bound>
    ensures { MatchResult result (λ bound. bound_end here ≡ Some bound) (λ same. (bound_end here ≡ None) × (same ≡ here)) }
{
    match here {
        Bound::Word(word) => Ok(Some(Bytes::of(word.into_vec()))),
        Bound::Whole(bound) => Ok(bound),
        Bound::Due => Err(Bound::Due),
        Bound::WordEscape(word) => Err(Bound::WordEscape(word)),
        Bound::Quoted(bytes) => Err(Bound::Quoted(bytes)),
        Bound::QuotedEscape(bytes) => Err(Bound::QuotedEscape(bytes)),
    }
}

/// One byte more of a term.
pub(crate) fn part_step(alloc: Global, here: Part, byte: u8) -> Result<Option<Part>, NoMemory>
    ensures { IfOk result (λ next. next ≡ part_step here byte) }
{
    match here {
        Part::EveryColon => Ok((byte == b':').then_some(Part::EveryStar)),
        Part::EveryStar => Ok((byte == b'*').then_some(Part::Whole(Term::Every))),
        Part::Field(field) => field_step(field, byte),
        Part::FieldEscape(field) => field_more(field, byte),
        Part::ValueDue(field) => value_step(alloc, field, byte),
        Part::Quoted(field, bytes) => quoted_step(field, bytes, byte),
        Part::QuotedEscape(field, bytes) => quoted_more(field, bytes, byte),
        Part::Word(field, signs) => word_step(field, signs, byte),
        Part::WordEscape(field, signs) => word_more(field, signs, Sign::Byte(byte)),
        Part::Low(field, with_ends, bound) => low_step(alloc, field, with_ends, bound, byte),
        Part::ToT(field, with_ends, low) => {
            Ok((byte == b'T').then_some(Part::ToO(field, with_ends, low)))
        }
        Part::ToO(field, with_ends, low) => {
            Ok((byte == b'O').then_some(Part::ToEnd(field, with_ends, low)))
        }
        Part::ToEnd(field, with_ends, low) => {
            Ok((byte == b' ').then_some(Part::High(field, with_ends, low, Bound::Due)))
        }
        Part::High(field, with_ends, low, bound) => {
            high_step(alloc, field, with_ends, low, bound, byte)
        }
        Part::Whole(_) => Ok(None),
    }
}

fn field_step(field: Listed<u8>, byte: u8) -> Result<Option<Part>, NoMemory>
    ensures { IfOk result (λ next. next ≡ part_step (variant.Field field) byte) }
{
    if byte == b':' {
        Ok(Some(Part::ValueDue(Bytes::of(field.into_vec()))))
    } else if byte == b'\\' {
        Ok(Some(Part::FieldEscape(field)))
    } else if is_field_byte(byte) {
        field_more(field, byte)
    } else {
        Ok(None)
    }
}

fn field_more(field: Listed<u8>, byte: u8) -> Result<Option<Part>, NoMemory>
    ensures { IfOk result (λ next. next ≡ part_step (variant.FieldEscape field) byte) }
{
    Ok(Some(Part::Field(with_byte(field, byte)?)))
}

fn value_step(alloc: Global, field: Bytes, byte: u8) -> Result<Option<Part>, NoMemory>
    ensures { IfOk result (λ next. next ≡ value_step field byte) }
{
    if byte == b'"' {
        Ok(Some(Part::Quoted(field, Listed::new(alloc))))
    } else if byte == b'[' {
        Ok(Some(Part::Low(field, true, Bound::Due)))
    } else if byte == b'{' {
        Ok(Some(Part::Low(field, false, Bound::Due)))
    } else {
        word_step(field, Listed::new(alloc), byte)
    }
}

fn quoted_step(field: Bytes, bytes: Listed<u8>, byte: u8) -> Result<Option<Part>, NoMemory>
    ensures { IfOk result (λ next. next ≡ part_step (variant.Quoted field bytes) byte) }
{
    if byte == b'"' {
        let wanted = Wanted::Equal(Bytes::of(bytes.into_vec()));
        Ok(Some(Part::Whole(Term::AtField(field, wanted))))
    } else if byte == b'\\' {
        Ok(Some(Part::QuotedEscape(field, bytes)))
    } else {
        quoted_more(field, bytes, byte)
    }
}

fn quoted_more(field: Bytes, bytes: Listed<u8>, byte: u8) -> Result<Option<Part>, NoMemory>
    ensures { IfOk result (λ next. next ≡ part_step (variant.QuotedEscape field bytes) byte) }
{
    Ok(Some(Part::Quoted(field, with_byte(bytes, byte)?)))
}

fn word_step(field: Bytes, signs: Listed<Sign>, byte: u8) -> Result<Option<Part>, NoMemory>
    ensures { IfOk result (λ next. next ≡ word_step field signs byte) }
{
    if byte == b'\\' {
        Ok(Some(Part::WordEscape(field, signs)))
    } else if byte == b'*' {
        word_more(field, signs, Sign::Any)
    } else if byte == b'?' {
        word_more(field, signs, Sign::One)
    } else if is_word_byte(byte) {
        word_more(field, signs, Sign::Byte(byte))
    } else {
        Ok(None)
    }
}

fn word_more(field: Bytes, signs: Listed<Sign>, sign: Sign) -> Result<Option<Part>, NoMemory>
    ensures { IfOk result (λ next. next ≡ Some (variant.Word field (signs ++ sign ∷ []))) }
{
    Ok(Some(Part::Word(field, with_sign(signs, sign)?)))
}

fn low_step(
    alloc: Global,
    field: Bytes,
    with_ends: bool,
    here: Bound,
    byte: u8,
) -> Result<Option<Part>, NoMemory>
    ensures { IfOk result (λ next. next ≡ part_step (variant.Low field with_ends here) byte) }
{
    if byte == b' ' {
        match bound_end(here) {
            Ok(low) => Ok(Some(Part::ToT(field, with_ends, low))),
            Err(here) => low_more(alloc, field, with_ends, here, byte),
        }
    } else {
        low_more(alloc, field, with_ends, here, byte)
    }
}

fn low_more(
    alloc: Global,
    field: Bytes,
    with_ends: bool,
    here: Bound,
    byte: u8,
) -> Result<Option<Part>, NoMemory>
    ensures { IfOk result (λ next. next ≡ low_more field with_ends here byte) }
{
    match bound_step(alloc, here, byte)? {
        Some(next) => Ok(Some(Part::Low(field, with_ends, next))),
        None => Ok(None),
    }
}

fn high_step(
    alloc: Global,
    field: Bytes,
    with_ends: bool,
    low: Option<Bytes>,
    here: Bound,
    byte: u8,
) -> Result<Option<Part>, NoMemory>
    ensures { IfOk result (λ next. next ≡ part_step (variant.High field with_ends low here) byte) }
{
    if byte == closing(with_ends) {
        match bound_end(here) {
            Ok(high) => {
                let range = Range {
                    with_ends,
                    low,
                    high,
                };
                Ok(Some(Part::Whole(Term::AtField(field, Wanted::Between(range)))))
            }
            Err(here) => high_more(alloc, field, with_ends, low, here, byte),
        }
    } else {
        high_more(alloc, field, with_ends, low, here, byte)
    }
}

fn high_more(
    alloc: Global,
    field: Bytes,
    with_ends: bool,
    low: Option<Bytes>,
    here: Bound,
    byte: u8,
) -> Result<Option<Part>, NoMemory>
    ensures { IfOk result (λ next. next ≡ high_more field with_ends low here byte) }
{
    match bound_step(alloc, here, byte)? {
        Some(next) => Ok(Some(Part::High(field, with_ends, low, next))),
        None => Ok(None),
    }
}

fn closing(with_ends: bool) -> u8
    ensures { result ≡ closing with_ends }
{
    if with_ends { b']' } else { b'}' }
}

/// The term, where it may end here, or else what was given.
pub(crate) fn into_term(here: Part) -> Result<Term, Part>
    ensures { MatchResult result (λ term. ended here ≡ Some term) (λ same. (ended here ≡ None) × (same ≡ here)) }
{
    match here {
        Part::Word(field, signs) => Ok(Term::AtField(field, Wanted::Like(signs))),
        Part::Whole(term) => Ok(term),
        Part::EveryColon => Err(Part::EveryColon),
        Part::EveryStar => Err(Part::EveryStar),
        Part::Field(field) => Err(Part::Field(field)),
        Part::FieldEscape(field) => Err(Part::FieldEscape(field)),
        Part::ValueDue(field) => Err(Part::ValueDue(field)),
        Part::Quoted(field, bytes) => Err(Part::Quoted(field, bytes)),
        Part::QuotedEscape(field, bytes) => Err(Part::QuotedEscape(field, bytes)),
        Part::WordEscape(field, signs) => Err(Part::WordEscape(field, signs)),
        Part::Low(field, with_ends, bound) => Err(Part::Low(field, with_ends, bound)),
        Part::ToT(field, with_ends, low) => Err(Part::ToT(field, with_ends, low)),
        Part::ToO(field, with_ends, low) => Err(Part::ToO(field, with_ends, low)),
        Part::ToEnd(field, with_ends, low) => Err(Part::ToEnd(field, with_ends, low)),
        Part::High(field, with_ends, low, bound) => Err(Part::High(field, with_ends, low, bound)),
    }
}

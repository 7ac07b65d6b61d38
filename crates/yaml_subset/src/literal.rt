//! Literals that are being read: the text so far.
ghost use Rattle.std.specs.Prelude.{◌≡◌, ◌++◌, ◌∷◌, [], IfOk, IsUtf8, Some, if◌then◌else◌};
ghost use Rattle.yaml_subset.specs.Literal.{a_held, add, add_full, belongs, cut_at, fits, held_text};
ghost use Rattle.std.specs.Prelude as variant;

use crate::signs::{behind, indent, is_blank, is_marker};
use doc_tree::{NoMemory, Text};
use std::alloc::Global;
use std::marker::Model;

/// How a literal is read: whether it stands alone in its text, whether the line feed at its end is kept, and the least
/// indent of its lines.
#[derive(Clone, Copy, Drop)]
pub(crate) struct Sign {
    pub(crate) lone: bool,
    pub(crate) keeps: bool,
    pub(crate) above: usize,
}

/// A text that grows: contracts see its bytes.
#[derive(Drop)]
pub(crate) struct Growing {
    text: String,
}

impl Model for Growing {
    ghost use Rattle.std.specs.Prelude.{List, ℕ, string_bytes};

    ghost Value = { List ℕ };

    ghost view = { λ g. string_bytes g.text };
}

/// A literal's lines so far: the indent of the first that isn't blank, the text, and the line feeds that come before
/// the next line that isn't blank.
#[derive(Drop)]
pub(crate) struct Held {
    indent: Option<usize>,
    text: Growing,
    feeds: Growing,
}

impl Growing {
    fn new(alloc: Global) -> Growing
        ensures { result ≡ [] }
    {
        Growing {
            text: String::new(alloc),
        }
    }

    fn with(self, more: &str) -> Result<Growing, NoMemory>
        ensures { IfOk result (λ g. g ≡ self ++ more.now) }
    {
        let Growing { mut text } = self;
        text.push_str(more)?;
        Ok(Growing { text })
    }

    fn with_all(self, more: &Growing) -> Result<Growing, NoMemory>
        ensures { IfOk result (λ g. g ≡ self ++ more.now) }
    {
        self.with(more.text.as_str())
    }

    fn into_text(self) -> Text
        ensures { result ≡ self }
    {
        let Growing { text } = self;
        Text::of(text)
    }
}

/// Whether a line is a literal's, by its indent.
pub(crate) fn belongs(above: usize, line: &[u8]) -> bool
    ensures { result ≡ belongs above line.now }
{
    is_blank(line) || above <= indent(line)
}

fn cut_at(own: Option<usize>, line: &[u8]) -> usize
    ensures { result ≡ cut_at own line.now }
{
    match own {
        None => indent(line),
        Some(count) => count,
    }
}

/// The literal of no lines.
pub(crate) fn no_lines(alloc: Global) -> Held
    ensures { result ≡ a_held variant.None [] [] }
{
    Held {
        indent: None,
        text: Growing::new(alloc),
        feeds: Growing::new(alloc),
    }
}

/// One line more, or `None` exactly where it doesn't fit.
pub(crate) fn add(alloc: Global, line: &[u8], held: Held) -> Result<Option<Held>, NoMemory>
    requires { IsUtf8 line.now }
    ensures { IfOk result (λ next. next ≡ (if fits held.indent line.now then Some (add line.now held) else variant.None)) }
{
    if is_marker(line) {
        return Ok(None);
    }
    if is_blank(line) {
        return Ok(Some(add_blank(held)?));
    }
    add_full(alloc, line, held)
}

fn add_blank(held: Held) -> Result<Held, NoMemory>
    ensures { IfOk result (λ next. next ≡ a_held held.indent held.text (held.feeds ++ 10 ∷ [])) }
{
    let Held {
        indent,
        text,
        feeds,
    } = held;
    let feeds = feeds.with("\n")?;
    Ok(Held {
        indent,
        text,
        feeds,
    })
}

fn add_full(alloc: Global, line: &[u8], held: Held) -> Result<Option<Held>, NoMemory>
    requires { IsUtf8 line.now }
    ensures { IfOk result (λ next. next ≡ add_full line.now held) }
{
    let count = cut_at(held.indent, line);
    if count > indent(line) {
        return Ok(None);
    }
    match str::from_utf8(behind(line, count)) {
        Ok(text) => Ok(Some(add_text(alloc, count, text, held)?)),
        // What is cut off are spaces, so a text is left.
        Err(_) => unreachable!(),
    }
}

fn add_text(alloc: Global, count: usize, more: &str, held: Held) -> Result<Held, NoMemory>
    ensures { IfOk result (λ next. next ≡ a_held (Some count) (held.text ++ (held.feeds ++ more.now)) (10 ∷ [])) }
{
    let Held {
        indent: _,
        text,
        feeds,
    } = held;
    let text = text.with_all(&feeds)?.with(more)?;
    let feeds = Growing::new(alloc).with("\n")?;
    Ok(Held {
        indent: Some(count),
        text,
        feeds,
    })
}

/// The text where the literal ends.
pub(crate) fn held_text(alloc: Global, keeps: bool, held: Held) -> Result<Text, NoMemory>
    ensures { IfOk result (λ text. text ≡ held_text keeps held) }
{
    let Held {
        indent,
        text,
        feeds: _,
    } = held;
    if indent.is_none() {
        return Ok(Growing::new(alloc).into_text());
    }
    if keeps {
        Ok(text.with("\n")?.into_text())
    } else {
        Ok(text.into_text())
    }
}

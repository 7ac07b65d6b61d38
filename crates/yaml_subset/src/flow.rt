//! Flow lists and maps, which are read token by token, without recursion.
ghost use Rattle.doc_tree.specs.Doc.{dict, list, docs_of, pairs_of};
ghost use Rattle.std.specs.Prelude.{◌≡◌, ◌∷◌, [], IfOk, Some};
ghost use Rattle.yaml_subset.specs.Flow.{closed, closes_list, closes_map, flow_begins, flow_doc, flow_from, flow_over, flow_step, flow_within, goes_on, names, opens, put, takes, with_token, within};
ghost use Rattle.yaml_subset.specs.Tokens.{token_at};
ghost use Rattle.yaml_subset.specs.declared.token.Token.TheVariants as token_of;

use crate::document::Document;
use crate::pairs::Pairs;
use crate::quoted::begins;
use crate::stack::Stack;
use crate::token::{Token, token_at};
use doc_tree::{NoMemory, Text, Trees};
use std::alloc::Global;

// How many brackets may be open around a bracket and the one around it.
const AROUND: usize = 99;

/// What may come next within brackets.
#[derive(Clone, Copy, Drop)]
pub(crate) enum Want {
    /// An item or a key, or the bracket's end.
    More,
    /// The value of a key.
    Node,
    /// A comma, or the bracket's end.
    Sign,
}

/// A bracket that is open: the items of a list, or the pairs of a map and the key whose value is due.
#[derive(Drop)]
pub(crate) enum Bracket {
    /// `[`.
    InList(Trees),
    /// `{`.
    InMap(Pairs, Text),
}

/// An open bracket, what may come next in it, and those around it, the innermost first.
#[derive(Drop)]
pub(crate) struct Brackets {
    want: Want,
    bracket: Bracket,
    below: Stack<Bracket>,
}

/// What was read of a flow.
#[derive(Drop)]
pub(crate) enum Flowing {
    /// Nothing.
    Before,
    /// Open brackets.
    Within(Brackets),
    /// All of it.
    Over(Document),
}

fn within(want: Want, bracket: Bracket, below: Stack<Bracket>) -> Flowing
    ensures { result ≡ within want bracket below }
{
    Flowing::Within(Brackets {
        want,
        bracket,
        below,
    })
}

fn no_key(alloc: Global) -> Text
    ensures { result ≡ [] }
{
    Text::of(String::new(alloc))
}

fn put(alloc: Global, document: Document, bracket: Bracket) -> Result<Bracket, NoMemory>
    ensures { IfOk result (λ b. b ≡ put document bracket) }
{
    match bracket {
        Bracket::InList(mut trees) => {
            trees.push(document.into_tree())?;
            Ok(Bracket::InList(trees))
        }
        Bracket::InMap(mut pairs, key) => {
            pairs.put(alloc, key, document)?;
            Ok(Bracket::InMap(pairs, no_key(alloc)))
        }
    }
}

fn takes(want: Want, bracket: &Bracket) -> bool
    ensures { result ≡ takes want bracket.now }
{
    match want {
        Want::More => match bracket {
            Bracket::InList(_) => true,
            Bracket::InMap(_, _) => false,
        },
        Want::Node => match bracket {
            Bracket::InList(_) => false,
            Bracket::InMap(_, _) => true,
        },
        Want::Sign => false,
    }
}

fn opens(
    new: Bracket,
    want: Want,
    bracket: Bracket,
    below: Stack<Bracket>,
) -> Result<Option<Flowing>, NoMemory>
    ensures { IfOk result (λ next. next ≡ opens new want bracket below) }
{
    if !takes(want, &bracket) || below.len() >= AROUND {
        return Ok(None);
    }
    let mut below = below;
    below.push(bracket)?;
    Ok(Some(within(Want::More, new, below)))
}

fn closed(alloc: Global, document: Document, below: Stack<Bracket>) -> Result<Flowing, NoMemory>
    ensures { IfOk result (λ next. next ≡ closed document below) }
{
    let mut below = below;
    match below.pop() {
        Some(outer) => {
            let outer = put(alloc, document, outer)?;
            Ok(within(Want::Sign, outer, below))
        }
        None => Ok(Flowing::Over(document)),
    }
}

fn names(key: Text, want: Want, bracket: Bracket, below: Stack<Bracket>) -> Option<Flowing>
    ensures { result ≡ names key want bracket below }
{
    match want {
        Want::More => match bracket {
            Bracket::InList(_) => None,
            Bracket::InMap(pairs, _) => {
                if pairs.has(&key) {
                    None
                } else {
                    Some(within(Want::Node, Bracket::InMap(pairs, key), below))
                }
            }
        },
        Want::Node | Want::Sign => None,
    }
}

fn closes_list(
    alloc: Global,
    want: Want,
    bracket: Bracket,
    below: Stack<Bracket>,
) -> Result<Option<Flowing>, NoMemory>
    ensures { IfOk result (λ next. next ≡ closes_list want bracket below) }
{
    match want {
        Want::Node => Ok(None),
        Want::More | Want::Sign => match bracket {
            Bracket::InList(trees) => Ok(Some(closed(alloc, Document::list(trees), below)?)),
            Bracket::InMap(_, _) => Ok(None),
        },
    }
}

fn closes_map(
    alloc: Global,
    want: Want,
    bracket: Bracket,
    below: Stack<Bracket>,
) -> Result<Option<Flowing>, NoMemory>
    ensures { IfOk result (λ next. next ≡ closes_map want bracket below) }
{
    match want {
        Want::Node => Ok(None),
        Want::More | Want::Sign => match bracket {
            Bracket::InList(_) => Ok(None),
            Bracket::InMap(pairs, _) => {
                let fields = pairs.into_fields(alloc)?;
                Ok(Some(closed(alloc, Document::dict(fields), below)?))
            }
        },
    }
}

fn goes_on(want: Want, bracket: Bracket, below: Stack<Bracket>) -> Option<Flowing>
    ensures { result ≡ goes_on want bracket below }
{
    match want {
        Want::More | Want::Node => None,
        Want::Sign => Some(within(Want::More, bracket, below)),
    }
}

fn flow_within(
    alloc: Global,
    token: Token,
    want: Want,
    bracket: Bracket,
    below: Stack<Bracket>,
) -> Result<Option<Flowing>, NoMemory>
    ensures { IfOk result (λ next. next ≡ flow_within token want bracket below) }
{
    match token {
        Token::OpenList => opens(Bracket::InList(Trees::new(alloc)), want, bracket, below),
        Token::OpenMap => {
            let new = Bracket::InMap(Pairs::new(alloc), no_key(alloc));
            opens(new, want, bracket, below)
        }
        Token::CloseList => closes_list(alloc, want, bracket, below),
        Token::CloseMap => closes_map(alloc, want, bracket, below),
        Token::Comma => Ok(goes_on(want, bracket, below)),
        Token::Key(key) => Ok(names(key, want, bracket, below)),
        Token::Scalar(document) => takes_value(alloc, document, want, bracket, below),
    }
}

fn takes_value(
    alloc: Global,
    document: Document,
    want: Want,
    bracket: Bracket,
    below: Stack<Bracket>,
) -> Result<Option<Flowing>, NoMemory>
    ensures { IfOk result (λ next. next ≡ flow_within (token_of.Scalar document) want bracket below) }
{
    if !takes(want, &bracket) {
        return Ok(None);
    }
    let bracket = put(alloc, document, bracket)?;
    Ok(Some(within(Want::Sign, bracket, below)))
}

fn flow_begins(alloc: Global, token: Token) -> Option<Flowing>
    ensures { result ≡ flow_begins token }
{
    let below = Stack::new(alloc);
    match token {
        Token::OpenList => {
            let new = Bracket::InList(Trees::new(alloc));
            Some(within(Want::More, new, below))
        }
        Token::OpenMap => {
            let new = Bracket::InMap(Pairs::new(alloc), no_key(alloc));
            Some(within(Want::More, new, below))
        }
        _ => None,
    }
}

fn flow_step(alloc: Global, token: Token, flowing: Flowing) -> Result<Option<Flowing>, NoMemory>
    ensures { IfOk result (λ next. next ≡ flow_step token flowing) }
{
    match flowing {
        Flowing::Before => Ok(flow_begins(alloc, token)),
        Flowing::Within(brackets) => {
            let Brackets {
                want,
                bracket,
                below,
            } = brackets;
            flow_within(alloc, token, want, bracket, below)
        }
        Flowing::Over(_) => Ok(None),
    }
}

fn flow_over(flowing: Flowing) -> Option<Document>
    ensures { result ≡ flow_over flowing }
{
    match flowing {
        Flowing::Before | Flowing::Within(_) => None,
        Flowing::Over(document) => Some(document),
    }
}

// What a flow comes to with the token that begins with this byte, and how many bytes of that stand behind it.
fn with_token(
    alloc: Global,
    flowing: Flowing,
    byte: u8,
    text: &[u8],
    after: &[u8],
) -> Result<Option<(Flowing, usize)>, NoMemory>
    requires { text.now ≡ byte ∷ after.now }
    ensures { IfOk result (λ next. next ≡ with_token flowing (token_at byte after.now)) }
{
    match token_at(alloc, byte, text, after)? {
        Some((token, length)) => match flow_step(alloc, token, flowing)? {
            Some(next) => Ok(Some((next, length))),
            None => Ok(None),
        },
        None => Ok(None),
    }
}

/// The document of a flow that is the whole text but for a comment, or `None` exactly where it is none.
pub(crate) fn flow_doc(alloc: Global, text: &[u8]) -> Result<Option<Document>, NoMemory>
    ensures { IfOk result (λ d. d ≡ flow_doc text.now) }
{
    let mut flowing = Flowing::Before;
    let mut skip = 0usize;
    let mut rest = text;
    while let Some((byte, after)) = rest.split_first() {
        if skip > 0 {
            skip -= 1;
        } else if *byte == b' ' {
            if begins(b'#', after) {
                return Ok(flow_over(flowing));
            }
        } else {
            match with_token(alloc, flowing, *byte, rest, after)? {
                Some((next, length)) => {
                    flowing = next;
                    skip = length;
                }
                None => return Ok(None),
            }
        }
        rest = after;
    }
    Ok(flow_over(flowing))
}

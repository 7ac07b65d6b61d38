//! Taking trees from the tokens of a body that may be any text.
ghost use Rattle.compact_json.specs.Next.{AtDoc, AtDocs, AtDict};
ghost use Rattle.compact_json.specs.Whole.{IsWholeText};
ghost use Rattle.doc_tree.specs.Doc.{dict, docs_of, list, pairs_of, whole};
ghost use Rattle.doc_tree.specs.Tree.{doc_of};
ghost use Rattle.row_reading.specs.Tokens.{IsReadOf, TookDoc, TookDocs, TookPairs};
ghost use Rattle.std.specs.Prelude.{◌≡◌, ◌<◌, IfOk, IfSome, length, option_map};

use doc_tree::{Fields, NoMemory, Number, Text, Tree, Trees};
use json::{Reader, Token};
use std::alloc::Global;

/// The tree of the document that is next. Where the text is none of a tree it is any tree, or `None`.
#[cycle(take)]
pub(crate) fn take_tree(alloc: Global, reader: &mut Reader<'_>) -> Result<Option<Tree>, NoMemory>
    ensures took { IfOk result (λ found. AtDoc reader.old → TookDoc (option_map doc_of found) reader.old reader.new) }
    ensures shorter { IfOk result (λ found. IfSome found (λ _. length reader.new < length reader.old)) }
{
    let Some(token) = reader.next() else {
        return Ok(None);
    };
    match token {
        Token::Null => Ok(Some(Tree::Null)),
        Token::Bool(truth) => Ok(Some(Tree::Bool(truth))),
        Token::Number(digits) => Ok(whole_tree(whole_of(digits))),
        Token::String(text) => Ok(Some(Tree::Words(Text::from_str(alloc, text)?))),
        Token::BeginArray => Ok(list_tree(take_trees(alloc, reader)?)),
        Token::BeginObject => Ok(dict_tree(take_fields(alloc, reader)?)),
        Token::EndObject | Token::EndArray | Token::Key(_) | Token::Bad => Ok(None),
    }
}

#[cycle(take)]
fn take_trees(alloc: Global, reader: &mut Reader<'_>) -> Result<Option<Trees>, NoMemory>
    ensures took { IfOk result (λ found. AtDocs reader.old → TookDocs found reader.old reader.new) }
    ensures shorter { IfOk result (λ found. IfSome found (λ _. length reader.new < length reader.old)) }
{
    let mut trees = Trees::new(alloc);
    while !reader.take_end_array() {
        match take_tree(alloc, reader)? {
            Some(tree) => trees.push(tree)?,
            None => return Ok(None),
        }
    }
    Ok(Some(trees))
}

#[cycle(take)]
fn take_fields(alloc: Global, reader: &mut Reader<'_>) -> Result<Option<Fields>, NoMemory>
    ensures took { IfOk result (λ found. AtDict reader.old → TookPairs found reader.old reader.new) }
    ensures shorter { IfOk result (λ found. IfSome found (λ _. length reader.new < length reader.old)) }
{
    let mut fields = Fields::new(alloc);
    loop {
        match reader.next_key() {
            Ok(Some(key)) => {
                let key = Text::from_str(alloc, key)?;
                match take_tree(alloc, reader)? {
                    Some(tree) => fields.put(key, tree)?,
                    None => return Ok(None),
                }
            }
            Ok(None) => return Ok(Some(fields)),
            Err(_) => return Ok(None),
        }
    }
}

fn whole_tree(found: Option<Number>) -> Option<Tree>
    ensures { option_map doc_of result ≡ option_map whole found }
{
    match found {
        Some(number) => Some(Tree::Whole(number)),
        None => None,
    }
}

fn list_tree(found: Option<Trees>) -> Option<Tree>
    ensures { option_map doc_of result ≡ option_map (λ ds. list (docs_of ds)) found }
{
    match found {
        Some(trees) => Some(Tree::List(trees)),
        None => None,
    }
}

fn dict_tree(found: Option<Fields>) -> Option<Tree>
    ensures { option_map doc_of result ≡ option_map (λ ps. dict (pairs_of ps)) found }
{
    match found {
        Some(fields) => Some(Tree::Dict(fields)),
        None => None,
    }
}

/// The number of these digits, if they are those of a whole one.
fn whole_of(digits: &str) -> Option<Number>
    ensures { IsWholeText digits.now → IsReadOf digits.now result }
{
    match digits.parse::<u64>() {
        Ok(whole) => Some(Number::from(whole)),
        Err(_) => match digits.parse::<i64>() {
            Ok(whole) => Some(Number::from(whole)),
            Err(_) => None,
        },
    }
}

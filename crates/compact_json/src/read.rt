//! Reading trees from the tokens of a document's text.
ghost use Rattle.compact_json.specs.Compact.{first_doc};
ghost use Rattle.compact_json.specs.Next.{AtDoc, AtDocs, AtDict};
ghost use Rattle.doc_tree.specs.Doc.{docs_of, pairs_of};
ghost use Rattle.doc_tree.specs.Tokens.{doc_tokens, docs_tokens, pairs_tokens};
ghost use Rattle.doc_tree.specs.Tree.{doc_of};
ghost use Rattle.std.specs.Prelude.{◌≡◌, ◌++◌, IfOk};

use crate::next::{next_key, next_token};
use crate::whole::whole_of;
use doc_tree::{Fields, NoMemory, Text, Tree, Trees};
use json::{Reader, Token};
use std::alloc::Global;

/// The tree of the document that is next.
pub(crate) fn read_doc(alloc: Global, reader: &mut Reader<'_>) -> Result<Tree, NoMemory>
    requires { AtDoc reader.old }
    ensures { IfOk result (λ tree. doc_of tree ≡ first_doc reader.old) }
{
    let tree = read_tree(alloc, reader)?;
    // What every tree keeps makes it the one whose tokens were read.
    tree.known();
    Ok(tree)
}

#[cycle(read)]
fn read_tree(alloc: Global, reader: &mut Reader<'_>) -> Result<Tree, NoMemory>
    requires { AtDoc reader.old }
    ensures { IfOk result (λ tree. reader.old ≡ doc_tokens (doc_of tree) ++ reader.new) }
{
    match next_token(reader) {
        Token::Null => Ok(Tree::Null),
        Token::Bool(truth) => Ok(Tree::Bool(truth)),
        Token::Number(digits) => Ok(Tree::Whole(whole_of(digits))),
        Token::String(text) => Ok(Tree::Words(Text::from_str(alloc, text)?)),
        Token::BeginArray => Ok(Tree::List(read_trees(alloc, reader)?)),
        Token::BeginObject => Ok(Tree::Dict(read_fields(alloc, reader)?)),
        Token::EndObject | Token::EndArray | Token::Key(_) | Token::Bad => unreachable!(),
    }
}

#[cycle(read)]
fn read_trees(alloc: Global, reader: &mut Reader<'_>) -> Result<Trees, NoMemory>
    requires { AtDocs reader.old }
    ensures { IfOk result (λ trees. reader.old ≡ docs_tokens (docs_of trees) ++ reader.new) }
{
    let mut trees = Trees::new(alloc);
    while !reader.take_end_array() {
        trees.push(read_tree(alloc, reader)?)?;
    }
    Ok(trees)
}

#[cycle(read)]
fn read_fields(alloc: Global, reader: &mut Reader<'_>) -> Result<Fields, NoMemory>
    requires { AtDict reader.old }
    ensures { IfOk result (λ fields. reader.old ≡ pairs_tokens (pairs_of fields) ++ reader.new) }
{
    let mut fields = Fields::new(alloc);
    while let Some(key) = next_key(reader) {
        let key = Text::from_str(alloc, key)?;
        fields.push(key, read_tree(alloc, reader)?)?;
    }
    Ok(fields)
}

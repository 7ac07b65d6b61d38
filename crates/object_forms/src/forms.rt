//! The forms of fields.
ghost use Rattle.std.specs.Prelude.{◌≡◌, true, IfOk, option_map, bytes_eq};
ghost use Rattle.doc_tree.specs.Doc.{pairs_of};
ghost use Rattle.doc_tree.specs.Name as names;
ghost use Rattle.doc_tree.specs.Tree.{doc_of};
ghost use Rattle.object_forms.specs.Forms as spec;
ghost use Rattle.object_forms.specs.Rows.{form_of};

use crate::rows::Form;
use crate::stored_lists::{stored_by_name, stored_run_list};
use doc_tree::{Fields, NoMemory, Text, Tree, is_name};
use std::alloc::Global;
use version_rules::read_constraint;

/// What is stored of a tree that has the form, and `None` where it hasn't.
pub(crate) fn stored(alloc: Global, form: Form<'_>, tree: &Tree) -> Result<Option<Tree>, NoMemory>
    ensures { IfOk result (λ found. option_map doc_of found ≡ spec.stored (form_of form.entry) (doc_of tree.now)) }
{
    match form {
        Form::Name => kept(alloc, is_name_text(tree), tree),
        Form::Id => kept(alloc, is_id_text(tree), tree),
        Form::Text => kept(alloc, is_text(tree), tree),
        Form::Exactly(text) => kept(alloc, is_exactly(text, tree), tree),
        Form::Truth => kept(alloc, is_truth(tree), tree),
        Form::Dict => kept(alloc, is_dict(tree), tree),
        Form::Items => stored_run_list(alloc, tree),
        Form::ItemsByName => stored_by_name(alloc, tree),
        Form::ConstraintsByName => kept(alloc, is_constraints(tree), tree),
    }
}

/// The tree as it was sent, where it has its form.
fn kept(alloc: Global, has_form: bool, tree: &Tree) -> Result<Option<Tree>, NoMemory>
    ensures { IfOk result (λ found. option_map doc_of found ≡ spec.kept (λ d. has_form) (doc_of tree.now)) }
{
    if has_form {
        Ok(Some(tree.copy(alloc)?))
    } else {
        Ok(None)
    }
}

fn is_name_text(tree: &Tree) -> bool
    ensures { result ≡ spec.is_text names.is_name (doc_of tree.now) }
{
    match tree {
        Tree::Words(text) => is_name(text.as_str()),
        Tree::Null | Tree::Bool(_) | Tree::Whole(_) | Tree::List(_) | Tree::Dict(_) => false,
    }
}

fn is_id_text(tree: &Tree) -> bool
    ensures { result ≡ spec.is_text spec.is_id (doc_of tree.now) }
{
    match tree {
        Tree::Words(text) => is_id(text.as_str()),
        Tree::Null | Tree::Bool(_) | Tree::Whole(_) | Tree::List(_) | Tree::Dict(_) => false,
    }
}

fn is_id(text: &str) -> bool
    ensures { result ≡ spec.is_id text.now }
{
    is_name(text) && text != "_acl"
}

fn is_text(tree: &Tree) -> bool
    ensures { result ≡ spec.is_text (λ text. true) (doc_of tree.now) }
{
    matches!(tree, Tree::Words(_))
}

/// Whether a tree is this text.
pub(crate) fn is_exactly(this: &str, tree: &Tree) -> bool
    ensures { result ≡ spec.is_text (bytes_eq this.now) (doc_of tree.now) }
{
    match tree {
        Tree::Words(text) => this == text.as_str(),
        Tree::Null | Tree::Bool(_) | Tree::Whole(_) | Tree::List(_) | Tree::Dict(_) => false,
    }
}

fn is_truth(tree: &Tree) -> bool
    ensures { result ≡ spec.is_truth (doc_of tree.now) }
{
    matches!(tree, Tree::Bool(_))
}

/// Whether a tree is a Dict.
pub(crate) fn is_dict(tree: &Tree) -> bool
    ensures { result ≡ spec.is_dict (λ ps. true) (doc_of tree.now) }
{
    matches!(tree, Tree::Dict(_))
}

fn is_constraints(tree: &Tree) -> bool
    ensures { result ≡ spec.is_dict spec.are_constraints (doc_of tree.now) }
{
    match tree {
        Tree::Dict(fields) => are_constraints(fields),
        Tree::Null | Tree::Bool(_) | Tree::Whole(_) | Tree::Words(_) | Tree::List(_) => false,
    }
}

/// Whether each key is a Name, and each tree the text of a constraint.
fn are_constraints(fields: &Fields) -> bool
    ensures { result ≡ spec.are_constraints (pairs_of fields.now) }
{
    for field in fields.as_slice() {
        if !(is_name(field.key.as_str()) && is_constraint(&field.tree)) {
            return false;
        }
    }
    true
}

fn is_constraint(tree: &Tree) -> bool
    ensures { result ≡ spec.is_text spec.is_constraint (doc_of tree.now) }
{
    match tree {
        Tree::Words(text) => read_constraint(text).is_ok(),
        Tree::Null | Tree::Bool(_) | Tree::Whole(_) | Tree::List(_) | Tree::Dict(_) => false,
    }
}

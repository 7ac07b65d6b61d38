//! The fields of a manifest that tell which cookbook's version it is.
ghost use Rattle.std.specs.Prelude.{◌≡◌, IfOk, Ok, codes, map, option_map, string_bytes};
ghost use Rattle.doc_tree.specs.Doc.{pairs_of};
ghost use Rattle.doc_tree.specs.Tree.{doc_of};
ghost use Rattle.cookbook_meta.specs.Fields as spec;
ghost use Rattle.cookbook_meta.specs.Outcomes.{Gives};
ghost use Rattle.cookbook_meta.specs.Rows.{form_of, row_of};

use crate::fault::{Flaw, MetaFault, in_field};
use crate::parts::{text_of, version_of};
use doc_tree::{Fields, Name, NoMemory, Tree};
use std::alloc::Global;
use version_rules::Version;

/// The form of a field.
#[derive(Clone, Copy, Drop)]
pub(crate) enum Form<'a> {
    /// A name that the path gives.
    Named(&'a str),
    /// The version that the path gives.
    Released(Version),
    /// A text that the format states.
    Stated(&'static str),
}

/// A field that tells which cookbook's version a manifest is.
#[derive(Clone, Copy, Drop)]
pub(crate) struct Row<'a> {
    pub(crate) key: &'static str,
    pub(crate) must: bool,
    pub(crate) form: Form<'a>,
}

/// A cookbook's name and version, with a dash between them.
pub(crate) fn release_name(alloc: Global, name: &Name, version: Version) -> Result<String, NoMemory>
    ensures { IfOk result (λ text. string_bytes text ≡ spec.release_name name.now version) }
{
    Ok(format!(in alloc; "{name}-{version}")?)
}

/// The fields that tell which cookbook's version a manifest is, in the order in which they are looked at.
pub(crate) fn told_by<'a>(name: &'a str, release: &'a str, version: Version) -> [Row<'a>; 5]
    ensures { map row_of result ≡ spec.rows name.now release.now version }
{
    [
        Row {
            key: "cookbook_name",
            must: false,
            form: Form::Named(name),
        },
        Row {
            key: "name",
            must: false,
            form: Form::Named(release),
        },
        Row {
            key: "version",
            must: true,
            form: Form::Released(version),
        },
        chef_type(),
        json_class(),
    ]
}

/// The field that tells which artifact it is.
pub(crate) fn named_by(name: &str) -> [Row<'_>; 1]
    ensures { map row_of result ≡ spec.named_rows name.now }
{
    [Row {
        key: "name",
        must: false,
        form: Form::Named(name),
    }]
}

/// The fields whose texts the format states.
pub(crate) fn stated() -> [Row<'static>; 2]
    ensures { map row_of result ≡ spec.stated_rows }
{
    [chef_type(), json_class()]
}

fn chef_type() -> Row<'static>
    ensures { row_of result ≡ spec.may_be (codes "chef_type") (spec.stated (codes "cookbook_version")) }
{
    Row {
        key: "chef_type",
        must: false,
        form: Form::Stated("cookbook_version"),
    }
}

fn json_class() -> Row<'static>
    ensures { row_of result ≡ spec.may_be (codes "json_class") (spec.stated (codes "Chef::CookbookVersion")) }
{
    Row {
        key: "json_class",
        must: false,
        form: Form::Stated("Chef::CookbookVersion"),
    }
}

/// Whether each field is as its row asks, or the fault of the first that isn't.
pub(crate) fn are_as_asked(alloc: Global, rows: &[Row<'_>], body: &Fields) -> Result<(), MetaFault>
    ensures { Gives result (spec.are_as_asked (map row_of rows.now) (pairs_of body.now)) }
{
    for row in rows {
        in_field(alloc, row.key, is_as_asked(row, body.get(row.key)))?;
    }
    Ok(())
}

fn is_as_asked(row: &Row<'_>, found: Option<&Tree>) -> Result<(), Flaw>
    ensures { result ≡ spec.is_as_asked (row_of row.now) (option_map (λ t. doc_of t.now) found.entry) }
{
    match found {
        Some(tree) => has_form(row.form, tree),
        None => {
            if row.must {
                Err(Flaw::MissingField)
            } else {
                Ok(())
            }
        }
    }
}

fn has_form(form: Form<'_>, tree: &Tree) -> Result<(), Flaw>
    ensures { result ≡ spec.has_form (form_of form.entry) (doc_of tree.now) }
{
    match form {
        Form::Named(name) => is_text(tree, name, Flaw::NameDiffers),
        Form::Released(version) => is_version(tree, version),
        Form::Stated(text) => is_text(tree, text, Flaw::WrongKind),
    }
}

fn is_text(tree: &Tree, text: &str, other: Flaw) -> Result<(), Flaw>
    ensures { result ≡ spec.is_text text.now other (doc_of tree.now) }
{
    if text_of(tree)? == text {
        Ok(())
    } else {
        Err(other)
    }
}

fn is_version(tree: &Tree, version: Version) -> Result<(), Flaw>
    ensures { result ≡ spec.has_form (spec.released version) (doc_of tree.now) }
{
    let sent = version_of(tree)?;
    if same_version(&sent, &version) {
        Ok(())
    } else {
        Err(Flaw::NameDiffers)
    }
}

/// Whether two versions are equal.
pub(crate) fn same_version(one: &Version, other: &Version) -> bool
    ensures { result ≡ spec.same_version one.now other.now }
{
    one == other
}

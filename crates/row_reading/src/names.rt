//! The forms of the names of rows.
ghost use Rattle.std.specs.Prelude.{◌≡◌, ◌&&◌, IfOk, Some, None, bytes_eq, cond, not, option_map};
ghost use Rattle.doc_tree.specs.Name as names;
ghost use Rattle.object_forms.specs.Forms as forms;
ghost use Rattle.org_rows.specs.Places as spec;
ghost use Rattle.version_rules.specs.Versions.{version_text};

use doc_tree::{Name, NoMemory, Text, is_name};
use std::alloc::Global;
use version_rules::Version;

/// The texts before and behind the first slash.
pub(crate) fn split_at_slash(name: &str) -> Option<(&str, &str)>
    ensures { option_map (λ parts. (parts.0.now, parts.1.now)) result ≡ spec.split_at_slash name.now }
{
    name.split_once('/')
}

/// The Name that a text is, if it is one.
pub(crate) fn name_of(alloc: Global, text: &str) -> Result<Option<Name>, NoMemory>
    ensures { IfOk result (λ name. name ≡ cond (names.is_name text.now) (Some text.now) None) }
{
    let text = Text::from_str(alloc, text)?;
    Ok(Name::of(text).ok())
}

/// Whether a text is a Name other than the operator's.
pub(crate) fn is_actor_name(name: &str) -> bool
    ensures { result ≡ spec.is_actor_name name.now }
{
    is_name(name) && name != "pivotal"
}

/// Whether a text is the id of an item.
pub(crate) fn is_id(text: &str) -> bool
    ensures { result ≡ forms.is_id text.now }
{
    is_name(text) && text != "_acl"
}

/// Whether a text is the version as it is stored.
pub(crate) fn is_written(alloc: Global, version: &Version, text: &str) -> Result<bool, NoMemory>
    ensures { IfOk result (λ same. same ≡ bytes_eq (version_text version.now) text.now) }
{
    let written = format!(in alloc; "{version}")?;
    Ok(written.as_str() == text)
}

//! Kinds by their words.
ghost use Rattle.std.specs.Prelude.{◌≡◌, bytes_eq};
ghost use Rattle.std.specs.List.{find};
ghost use Rattle.doc_tree.specs.Kind.{word_of};
ghost use Rattle.object_store.specs.Keys.{all_kinds};
ghost use Rattle.org_rows.specs.Places.{kind_named};

use doc_tree::Kind;

/// The kind that a word stands for, or `None` exactly where it stands for none.
pub fn kind_named(word: &str) -> Option<Kind>
    ensures { result ≡ kind_named word.now }
{
    named_among(&all_kinds(), word)
}

/// The first of these kinds that has this word.
fn named_among(kinds: &[Kind], word: &str) -> Option<Kind>
    ensures { result ≡ find (λ kind. bytes_eq word.now (word_of kind)) kinds.now }
{
    kinds.iter().find(|kind| word == kind.word()).copied()
}

fn all_kinds() -> [Kind; 17]
    ensures { result ≡ all_kinds }
{
    [
        Kind::Org,
        Kind::Node,
        Kind::Role,
        Kind::Environment,
        Kind::Bag,
        Kind::Client,
        Kind::User,
        Kind::Group,
        Kind::Container,
        Kind::Item,
        Kind::Cookbook,
        Kind::Artifact,
        Kind::Policy,
        Kind::PolicyGroup,
        Kind::Acl,
        Kind::Sandbox,
        Kind::File,
    ]
}

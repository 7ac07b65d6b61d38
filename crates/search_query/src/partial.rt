//! What a partial search shows of each object.
ghost use Rattle.std.specs.Prelude.{◌≡◌, IfOk, map};
ghost use Rattle.doc_tree.specs.Tree.{doc_of, pair_of};
ghost use Rattle.search_query.specs.Outcomes.{Gives};
ghost use Rattle.search_query.specs.Partial as spec;

use crate::fault::{PartialFault, bad_field};
use crate::parts::value_at;
use crate::paths::path_of;
use compact_json::CompactJson;
use doc_tree::{Field, Fields, Kind, Listed, NoMemory, Text, Texts, Tree};
use std::alloc::Global;
use std::marker::Model;

/// What a partial search shows of each object: keys, each with the path at which its value is looked up. Contracts see
/// the list of the keys with their paths: the keys stand in byte order, each once.
#[derive(Drop)]
pub struct Partial {
    wanted: Listed<(Text, Texts)>,
}

impl Model for Partial {
    ghost use Rattle.std.specs.Prelude.{List};
    ghost use Rattle.std.specs.Map.{keys_of};
    ghost use Rattle.doc_tree.specs.Valid.{InOrder};
    ghost use Rattle.search_query.specs.Partial.{Wanted};

    ghost Value = { List Wanted };

    ghost view = { λ p. p.wanted };

    ghost invariant = { λ p. InOrder (keys_of p.wanted) };
}

impl Partial {
    ghost use Rattle.std.specs.Map.{keys_of};
    ghost use Rattle.doc_tree.specs.Valid.{InOrder};

    /// What the body of a partial search asks for: a Dict from keys to paths, as `{"v":["c"],"w":["a","z"]}`. A path is a
    /// list of texts, which may be empty.
    ///
    /// It is `BadField` exactly where the body hasn't this form, with the first key in byte order whose value is no list
    /// of texts, or `body` where it is no Dict.
    #[tactic(auto, using(doc_tree::proofs::Docs::back))]
    pub fn read(alloc: Global, tree: &Tree) -> Result<Partial, PartialFault>
        ensures partial { Gives result (spec.partial_of (doc_of tree.now)) }
        ensures order { IfOk result (λ partial. InOrder (keys_of partial)) }
    {
        match tree {
            Tree::Dict(fields) => Partial::of_fields(alloc, fields),
            Tree::Null | Tree::Bool(_) | Tree::Whole(_) | Tree::Words(_) | Tree::List(_) => {
                Err(bad_field(alloc, "body"))
            }
        }
    }

    fn of_fields(alloc: Global, fields: &Fields) -> Result<Partial, PartialFault>
        ensures partial { Gives result (spec.each_or_fault spec.wanted_of fields.now) }
        ensures order { IfOk result (λ partial. InOrder (keys_of partial)) }
    {
        let wanted = each_wanted(alloc, fields.as_slice())?;
        Ok(Partial { wanted })
    }

    /// The row that it shows of an object of a kind, whose URL is `url`: `{"data":{KEY:VALUE,..},"url":URL}`, with the value
    /// of each key.
    ///
    /// A value is looked up by its path. In a node, and only there, the first that isn't null in the parts `automatic`,
    /// `override`, `normal` and `default` counts, in this order; where these have none, and in every other object, it is
    /// looked up in the object itself. What isn't found is null. The parts that it shows alone
    /// are made trees, and the rest of the object's text is gone over. Want of memory is the one refusal.
    pub fn row(
        &self,
        alloc: Global,
        kind: Kind,
        object: &CompactJson,
        url: Text,
    ) -> Result<Tree, NoMemory>
        ensures { IfOk result (λ row. doc_of row ≡ spec.partial_row kind self.now url object.now) }
    {
        let values = self.values(alloc, kind, object)?;
        let mut fields = Fields::with_capacity(alloc, 2)?;
        fields.put(Text::from_str(alloc, "data")?, Tree::Dict(values))?;
        fields.put(Text::from_str(alloc, "url")?, Tree::Words(url))?;
        Ok(Tree::Dict(fields))
    }

    fn values(&self, alloc: Global, kind: Kind, object: &CompactJson) -> Result<Fields, NoMemory>
        ensures { IfOk result (λ values. values ≡ spec.data_of kind self.now object.now) }
    {
        let mut values = Fields::with_capacity(alloc, self.wanted.len())?;
        for (key, path) in self.wanted.as_slice() {
            let value = value_at(alloc, kind, path.as_slice(), object)?;
            values.push(key.copy(alloc)?, value)?;
        }
        Ok(values)
    }
}

fn each_wanted(alloc: Global, fields: &[Field]) -> Result<Listed<(Text, Texts)>, PartialFault>
    ensures { Gives result (spec.each_or_fault spec.wanted_of (map pair_of fields.now)) }
{
    let mut wanted = Listed::new(alloc);
    for field in fields {
        wanted.push(wanted_of(alloc, field)?)?;
    }
    Ok(wanted)
}

fn wanted_of(alloc: Global, field: &Field) -> Result<(Text, Texts), PartialFault>
    ensures { Gives result (spec.wanted_of (pair_of field.now)) }
{
    match path_of(alloc, &field.tree)? {
        Some(path) => Ok((field.key.copy(alloc)?, path)),
        None => Err(bad_field(alloc, field.key.as_str())),
    }
}

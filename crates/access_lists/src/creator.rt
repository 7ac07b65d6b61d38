//! Who created a list over another.
ghost use Rattle.std.specs.Prelude.{◌≡◌, ◌++◌, ◌∷◌, [], ◌<◌, IfErr, IfOk, IfSome, IsTrue, length, slice_get, Some};
ghost use Rattle.membership.specs.TextSets.{in_order, IsRising};
ghost use Rattle.access_lists.specs.Acls.{each_entry, with_actor, with_creator};
ghost use Rattle.access_lists.specs.Creators.{IsCreatorAt, IsSpliced};

use crate::acl::{Acl, Entry};
use doc_tree::Text;
use membership::TextSet;

impl Acl {
    /// Who created this list over a base: nobody where it is the base, and the one more actor where each
    /// entry has one more. Any other list is handed back. It takes no memory.
    pub fn creator_over(self, base: &Acl) -> Result<Option<Text>, Acl>
        ensures over { IfOk result (λ creator. with_creator creator base.now ≡ self) }
        ensures other { IfErr result (λ acl. acl ≡ self) }
    {
        if is_same(&self, base) {
            drop(self);
            return Ok(None);
        }
        match creator_at(&self, base) {
            Some(index) => Ok(Some(actor_at(self, index))),
            None => Err(self),
        }
    }
}

// Whether both lists are the same.
#[tactic(auto, using(crate::proofs::CreatorsLemmas::same))]
fn is_same(acl: &Acl, other: &Acl) -> bool
    ensures { IsTrue result → acl.now ≡ other.now }
{
    is_same_entry(&acl.create, &other.create)
        && is_same_entry(&acl.read, &other.read)
        && is_same_entry(&acl.update, &other.update)
        && is_same_entry(&acl.delete, &other.delete)
        && is_same_entry(&acl.grant, &other.grant)
}

#[tactic(auto, using(crate::proofs::CreatorsLemmas::same))]
fn is_same_entry(entry: &Entry, other: &Entry) -> bool
    ensures { IsTrue result → entry.now ≡ other.now }
{
    same_texts(entry.actors.as_slice(), other.actors.as_slice())
        && same_texts(entry.groups.as_slice(), other.groups.as_slice())
}

fn same_texts(texts: &[Text], other: &[Text]) -> bool
    ensures { IsTrue result → texts.now ≡ other.now }
{
    texts == other
}

// Where the creator of a list over a base stands among the actors of its first entry, if there is one.
fn creator_at(acl: &Acl, base: &Acl) -> Option<usize>
    ensures { IfSome result (λ index. IsCreatorAt acl.now base.now index) }
{
    let index = first_other(&acl.create.actors, &base.create.actors)?;
    let creator = acl.create.actors.as_slice().get(index)?;
    is_created(acl, base, creator).then_some(index)
}

// The first of these texts that isn't among the others.
fn first_other(texts: &TextSet, others: &TextSet) -> Option<usize> {
    texts
        .as_slice()
        .iter()
        .position(|text| !others.contains(text))
}

// Whether a list is a base with this creator as one more actor in each entry.
#[tactic(auto, using(crate::proofs::CreatorsLemmas::same))]
fn is_created(acl: &Acl, base: &Acl, creator: &Text) -> bool
    ensures { IsTrue result → acl.now ≡ each_entry (with_actor creator.now) base.now }
{
    has_more(&acl.create, &base.create, creator)
        && has_more(&acl.read, &base.read, creator)
        && has_more(&acl.update, &base.update, creator)
        && has_more(&acl.delete, &base.delete, creator)
        && has_more(&acl.grant, &base.grant, creator)
}

// Whether an entry is another with this actor as one more.
fn has_more(entry: &Entry, other: &Entry, actor: &Text) -> bool
    ensures { IsTrue result → entry.now ≡ with_actor actor.now other.now }
{
    is_spliced(entry.actors.as_slice(), other.actors.as_slice(), actor)
        && same_texts(entry.groups.as_slice(), other.groups.as_slice())
}

// Whether texts are others with this one put in somewhere.
fn is_spliced(texts: &[Text], others: &[Text], text: &Text) -> bool
    ensures { IsTrue result → IsSpliced texts.now others.now text.now }
{
    match texts.binary_search(text) {
        Ok(index) => is_spliced_at(texts, others, text, index),
        Err(_) => false,
    }
}

fn is_spliced_at(texts: &[Text], others: &[Text], text: &Text, index: usize) -> bool
    ensures { IsTrue result → IsSpliced texts.now others.now text.now }
{
    if index > texts.len() || index > others.len() {
        return false;
    }
    let (front, rest) = texts.split_at(index);
    let (other_front, other_back) = others.split_at(index);
    match rest.split_first() {
        Some((first, back)) => {
            first == text && same_texts(front, other_front) && same_texts(back, other_back)
        }
        None => false,
    }
}

// The actor at this index in the first entry, which is moved out. The rest of the list goes.
fn actor_at(acl: Acl, index: usize) -> Text
    requires { index < length acl.create.actors }
    ensures { slice_get acl.create.actors index ≡ Some result }
{
    let Acl {
        create,
        read,
        update,
        delete,
        grant,
    } = acl;
    drop(read);
    drop(update);
    drop(delete);
    drop(grant);
    let Entry { actors, groups } = create;
    drop(groups);
    actors.into_texts().into_vec().swap_remove(index)
}

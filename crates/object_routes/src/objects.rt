//! The routes of nodes, roles, environments and clients: one rule for all four collections.

ghost use Rattle.std.specs.Prelude.{◌≡◌, [], ◌∷◌, ◌++◌, Ok, IfOk, OnOk, option_copied};
ghost use Rattle.doc_tree.specs.Name.{is_name};
ghost use Rattle.doc_tree.specs.Valid.{InOrder};
ghost use Rattle.object_forms.specs.Kinds.{IsFormed};
ghost use Rattle.object_store.specs.Objects.{key};
ghost use Rattle.org_core.specs.Contexts.{seen};
ghost use Rattle.org_core.specs.Creating.{created_by, with_list};
ghost use Rattle.org_core.specs.Outcomes.{IsAsDecided, Looked, does_by, reads, shows, tells};
ghost use Rattle.org_requests.specs.Refusals.{Tells, refuses};
ghost use Rattle.org_requests.specs.Replies.{paths_behind, shown as shown_doc};
ghost use Rattle.org_core.specs.States.{state_in};
ghost use Rattle.object_routes.specs.Objects as spec;

use crate::operations::ObjectsOperation;
use access_lists::Container;
use compact_json::CompactJson;
use doc_tree::{Kind, NoMemory, Steps, Text, Tree, is_name};
use object_finder::Finder;
use object_store::Key;
use org_core::{
    Comer, Context, Group, Lent, Move, Moves, Need, Needs, OrgState, Perm, Prepared, Stored,
    add_both, add_with_list, create_by, key_of, listed_need, named_by, object_in_body,
    object_named, one_move, or_stop, reply_copying, with_moves,
};
use org_requests::routes::ObjectsRoute;
use org_requests::{
    Body, Collection, Refusal, Reply, Request, Stop, Verb, absent, org_uri, shown, shown_paths,
};
use std::alloc::Global;
use std::sync::ledger::Ledger;

/// The group of the routes of one collection.
#[derive(Clone, Copy, Debug)]
pub struct PlainObjects {
    /// The collection.
    pub collection: Collection,
}

impl Group for PlainObjects {
    ghost use Rattle.object_routes.specs.Objects.{objects_rules};

    type Route = ObjectsRoute;

    type Operation = ObjectsOperation;

    ghost rules = { λ group. objects_rules group.collection };

    fn operation<F: Finder>(
        &self,
        alloc: Global,
        _context: Context<'_>,
        _lent: &Lent<'_, F>,
        route: &ObjectsRoute,
        request: &Request,
    ) -> Result<ObjectsOperation, Stop> {
        let kind = self.collection.kind();
        match route {
            ObjectsRoute::All => all_asked(alloc, kind, request.verb, &request.body),
            ObjectsRoute::One(name) => one_asked(alloc, kind, name, request.verb, &request.body),
        }
    }

    fn lacks<F: Finder>(
        &self,
        _alloc: Global,
        context: Context<'_>,
        _lent: &Lent<'_, F>,
        operation: &ObjectsOperation,
    ) -> Result<bool, NoMemory> {
        let kind = self.collection.kind();
        Ok(match operation {
            ObjectsOperation::List | ObjectsOperation::Create(_) => false,
            ObjectsOperation::Show(name)
            | ObjectsOperation::Replace(name, _)
            | ObjectsOperation::Remove(name) => lacks_named(kind, name, context.state),
        })
    }

    fn needs<F: Finder>(
        &self,
        alloc: Global,
        _context: Context<'_>,
        _lent: &Lent<'_, F>,
        operation: &ObjectsOperation,
    ) -> Result<Needs, NoMemory> {
        let mut needs = Needs::new(alloc);
        needs.push(needed(alloc, self.collection, operation)?)?;
        Ok(needs)
    }

    fn own_refusal<F: Finder>(
        &self,
        alloc: Global,
        context: Context<'_>,
        _lent: &Lent<'_, F>,
        operation: &ObjectsOperation,
    ) -> Result<Option<Refusal>, NoMemory> {
        let collection = self.collection;
        match operation {
            ObjectsOperation::List | ObjectsOperation::Show(_) => Ok(None),
            ObjectsOperation::Create(object) => {
                taken_refusal(alloc, collection, object, context.state)
            }
            ObjectsOperation::Replace(name, _) | ObjectsOperation::Remove(name) => {
                Ok(fixed_refusal(collection, name))
            }
        }
    }

    fn does<F: Finder, L: Ledger>(
        &self,
        alloc: Global,
        context: Context<'_>,
        _lent: &Lent<'_, F>,
        operation: ObjectsOperation,
        steps: &mut Steps<L>,
    ) -> Result<Prepared, Stop> {
        let collection = self.collection;
        match operation {
            ObjectsOperation::List => list(alloc, context, collection),
            ObjectsOperation::Create(object) => create(alloc, context, collection, object),
            ObjectsOperation::Show(name) => show_one(alloc, context, collection, name, steps),
            ObjectsOperation::Replace(name, object) => {
                replace_one(alloc, context, collection, name, object, steps)
            }
            ObjectsOperation::Remove(name) => remove_one(alloc, context, collection, name, steps),
        }
    }
}

/// What is asked of a collection.
fn all_asked(alloc: Global, kind: Kind, verb: Verb, body: &Body) -> Result<ObjectsOperation, Stop>
    requires { IsFormed kind }
    ensures { Tells result (spec.all_asked kind verb body.now) }
{
    match verb {
        Verb::Get => Ok(ObjectsOperation::List),
        Verb::Post => Ok(ObjectsOperation::Create(object_in_body(alloc, kind, None, body)?)),
        Verb::Put | Verb::Delete | Verb::Other => Err(Stop::Refused(Refusal::NotAllowed)),
    }
}

/// What is asked of one object.
fn one_asked(
    alloc: Global,
    kind: Kind,
    name: &Text,
    verb: Verb,
    body: &Body,
) -> Result<ObjectsOperation, Stop>
    requires { IsFormed kind }
    ensures { Tells result (spec.one_asked kind name.now verb body.now) }
{
    match verb {
        Verb::Get => Ok(ObjectsOperation::Show(name.copy(alloc)?)),
        Verb::Put => put_one(alloc, kind, name, body),
        Verb::Delete => Ok(ObjectsOperation::Remove(name.copy(alloc)?)),
        Verb::Post | Verb::Other => Err(Stop::Refused(Refusal::NotAllowed)),
    }
}

fn put_one(alloc: Global, kind: Kind, name: &Text, body: &Body) -> Result<ObjectsOperation, Stop>
    requires { IsFormed kind }
    ensures { Tells result (spec.put_one (is_name name.now) kind name.now body.now) }
{
    if !is_name(name.as_str()) {
        return Err(Stop::Refused(absent(body)));
    }
    let own = name.copy(alloc)?;
    Ok(ObjectsOperation::Replace(own, object_named(alloc, kind, name, body)?))
}

/// Whether no object of this kind has the name, which may have no name's form.
pub(crate) fn lacks_named(kind: Kind, name: &Text, state: &OrgState) -> bool
    ensures { result ≡ spec.lacks_named kind name.now (state_in state.now) }
{
    !(is_name(name.as_str()) && state.has(kind, name.as_str()))
}

/// The permission that an operation needs.
fn needed(
    alloc: Global,
    collection: Collection,
    operation: &ObjectsOperation,
) -> Result<Need, NoMemory>
    ensures { IfOk result (λ need. need ≡ spec.objects_need collection operation.now) }
{
    let kind = collection.kind();
    match operation {
        ObjectsOperation::List => {
            listed_need(alloc, Perm::Read, Kind::Container, collection.segment())
        }
        ObjectsOperation::Create(_) => {
            listed_need(alloc, Perm::Create, Kind::Container, collection.segment())
        }
        ObjectsOperation::Show(name) => listed_need(alloc, Perm::Read, kind, name.as_str()),
        ObjectsOperation::Replace(name, _) => listed_need(alloc, Perm::Update, kind, name.as_str()),
        ObjectsOperation::Remove(name) => listed_need(alloc, Perm::Delete, kind, name.as_str()),
    }
}

/// What is created must have a name that isn't taken.
fn taken_refusal(
    alloc: Global,
    collection: Collection,
    object: &Stored,
    state: &OrgState,
) -> Result<Option<Refusal>, NoMemory>
    ensures { IfOk result (λ o. o ≡ refuses Refusal.AlreadyExists (spec.is_taken collection (spec.name_of object.now) (state_in state.now))) }
{
    let name = Text::from_str(alloc, name_of(object))?;
    if is_reserved(collection, &name, state) || state.has(collection.kind(), name.as_str()) {
        Ok(Some(Refusal::AlreadyExists))
    } else {
        Ok(None)
    }
}

/// Whether nobody may take the name in the collection: a client isn't called as a user is, nor as the
/// operator.
fn is_reserved(collection: Collection, name: &Text, state: &OrgState) -> bool
    ensures { result ≡ spec.is_reserved collection name.now (state_in state.now) }
{
    match collection {
        Collection::Clients => state.groups().is_actor(name),
        Collection::Nodes | Collection::Roles | Collection::Environments => false,
    }
}

/// What is changed must not be fixed.
fn fixed_refusal(collection: Collection, name: &Text) -> Option<Refusal>
    ensures { result ≡ refuses Refusal.NotAllowed (spec.is_fixed collection name.now) }
{
    if is_fixed(collection, name.as_str()) {
        Some(Refusal::NotAllowed)
    } else {
        None
    }
}

/// Whether the object stays as it is: the environment `_default`.
fn is_fixed(collection: Collection, name: &str) -> bool
    ensures { result ≡ spec.is_fixed collection name.now }
{
    match collection {
        Collection::Environments => name == "_default",
        Collection::Nodes | Collection::Roles | Collection::Clients => false,
    }
}

/// The objects of a collection are listed.
fn list(alloc: Global, context: Context<'_>, collection: Collection) -> Result<Prepared, Stop>
    ensures { IsAsDecided result (spec.objects_does collection (seen context.entry) ObjectsOperation.List).answer }
{
    let front = objects_front(alloc, context.org, collection)?;
    or_stop(listed(alloc, &front, collection.kind(), context.state))
}

/// The names of a kind's objects, each with its path behind this front.
#[tactic(auto, unfolding(crate::specs::Objects::listed))]
pub(crate) fn listed(
    alloc: Global,
    front: &Text,
    kind: Kind,
    state: &OrgState,
) -> Result<Prepared, NoMemory>
    ensures { IfOk result (λ p. IsAsDecided (Ok p) (tells (spec.listed front.now kind (state_in state.now))).answer) }
{
    let names = state.names(alloc, kind)?;
    told_paths(alloc, front, names.as_slice())
}

/// 200 with each of these names and its path, which is the name behind this front.
pub(crate) fn told_paths(alloc: Global, front: &Text, names: &[Text]) -> Result<Prepared, NoMemory>
    requires { InOrder names.now }
    ensures { IfOk result (λ p. IsAsDecided (Ok p) (tells (shows (paths_behind front.now names.now))).answer) }
{
    let reply = shown_paths(alloc, front.as_str(), names)?;
    Ok(Prepared {
        reply,
        moves: Moves::new(alloc),
    })
}

/// The front of the paths of a collection's objects.
fn objects_front(alloc: Global, org: &Text, collection: Collection) -> Result<Text, NoMemory>
    ensures { IfOk result (λ front. front ≡ spec.objects_front org.now collection) }
{
    let mut front = org_uri(alloc, org)?.into_string();
    front.push_str("/")?;
    front.push_str(collection.segment())?;
    front.push_str("/")?;
    Ok(Text::of(front))
}

/// An object is created in a collection.
fn create(
    alloc: Global,
    context: Context<'_>,
    collection: Collection,
    object: Stored,
) -> Result<Prepared, Stop>
    ensures { IsAsDecided result (spec.objects_does collection (seen context.entry) (ObjectsOperation.Create object)).answer }
{
    match object_path(alloc, context.org, collection, name_of(&object)) {
        Ok(path) => or_stop(created_at(alloc, context, collection, path, object)),
        Err(fault) => {
            drop(object);
            Err(Stop::from(fault))
        }
    }
}

fn object_path(
    alloc: Global,
    org: &Text,
    collection: Collection,
    name: &str,
) -> Result<Text, NoMemory>
    ensures { IfOk result (λ path. path ≡ spec.objects_front org.now collection ++ name.now) }
{
    Text::joined(alloc, objects_front(alloc, org, collection)?.as_str(), name)
}

/// 201 with the path of a new object.
fn created_at(
    alloc: Global,
    context: Context<'_>,
    collection: Collection,
    path: Text,
    object: Stored,
) -> Result<Prepared, NoMemory>
    ensures { IfOk result (λ p. IsAsDecided (Ok p) (created_by path (spec.creation collection (seen context.entry) (spec.name_of object) object)).answer) }
{
    let mut moves = Moves::new(alloc);
    add_creation(alloc, context, collection, object, &mut moves)?;
    create_by(alloc, path, moves)
}

/// Adds the moves by which an object of a collection is created.
fn add_creation(
    alloc: Global,
    context: Context<'_>,
    collection: Collection,
    object: Stored,
    moves: &mut Moves,
) -> Result<(), NoMemory>
    requires { moves.old ≡ [] }
    ensures { OnOk result (moves.new ≡ spec.creation collection (seen context.entry) (spec.name_of object) object) }
{
    match add_comers(alloc, collection, name_of(&object), moves) {
        Ok(()) => {
            let container = collection.container();
            add_named(alloc, context, container, collection.kind(), object, moves)
        }
        Err(fault) => {
            drop(object);
            Err(fault)
        }
    }
}

/// Adds the moves by which an object comes into a container under its name, with an access list of its own.
pub(crate) fn add_named(
    alloc: Global,
    context: Context<'_>,
    container: Container,
    kind: Kind,
    object: Stored,
    moves: &mut Moves,
) -> Result<(), NoMemory>
    ensures { OnOk result (moves.new ≡ moves.old ++ with_list container (seen context.entry) kind (spec.name_of object) object) }
{
    match key_of(alloc, kind, name_of(&object)) {
        Ok(key) => add_with_list(alloc, context, container, key, object, moves),
        Err(fault) => {
            drop(object);
            Err(fault)
        }
    }
}

/// Adds who comes with an object of the collection: a client joins the group `clients`.
fn add_comers(
    alloc: Global,
    collection: Collection,
    name: &str,
    moves: &mut Moves,
) -> Result<(), NoMemory>
    ensures { OnOk result (moves.new ≡ moves.old ++ spec.comers collection name.now) }
{
    match collection {
        Collection::Clients => moves.push(Move::AddClient(Comer::of(alloc, name, "clients")?)),
        Collection::Nodes | Collection::Roles | Collection::Environments => Ok(()),
    }
}

/// An object is shown.
fn show_one<L: Ledger>(
    alloc: Global,
    context: Context<'_>,
    collection: Collection,
    name: Text,
    steps: &mut Steps<L>,
) -> Result<Prepared, Stop>
    ensures done { IsAsDecided result (spec.objects_does collection (seen context.entry) (ObjectsOperation.Show name)).answer }
    ensures looked { Looked result (spec.objects_does collection (seen context.entry) (ObjectsOperation.Show name)).looks steps.old steps.new }
{
    let object = context
        .state
        .look_up(collection.kind(), name.as_str(), steps);
    or_stop(show(alloc, object))
}

/// An object takes the place of the one of its name.
fn replace_one<L: Ledger>(
    alloc: Global,
    context: Context<'_>,
    collection: Collection,
    name: Text,
    object: Stored,
    steps: &mut Steps<L>,
) -> Result<Prepared, Stop>
    ensures done { IsAsDecided result (spec.objects_does collection (seen context.entry) (ObjectsOperation.Replace name object)).answer }
    ensures looked { Looked result (spec.objects_does collection (seen context.entry) (ObjectsOperation.Replace name object)).looks steps.old steps.new }
{
    let kind = collection.kind();
    let _replaced = context.state.look_up(kind, name.as_str(), steps);
    or_stop(replace(alloc, Key { kind, name }, object))
}

/// An object goes.
fn remove_one<L: Ledger>(
    alloc: Global,
    context: Context<'_>,
    collection: Collection,
    name: Text,
    steps: &mut Steps<L>,
) -> Result<Prepared, Stop>
    ensures done { IsAsDecided result (spec.objects_does collection (seen context.entry) (ObjectsOperation.Remove name)).answer }
    ensures looked { Looked result (spec.objects_does collection (seen context.entry) (ObjectsOperation.Remove name)).looks steps.old steps.new }
{
    let moves = removal(alloc, collection, &name)?;
    let object = context
        .state
        .look_up(collection.kind(), name.as_str(), steps);
    or_stop(remove(alloc, object, moves))
}

/// The moves by which an object of a collection goes, and its access list with it.
fn removal(alloc: Global, collection: Collection, name: &Text) -> Result<Moves, NoMemory>
    ensures { IfOk result (λ moves. moves ≡ spec.removal collection name.now) }
{
    let mut moves = Moves::new(alloc);
    add_removal(alloc, collection.kind(), name, &mut moves)?;
    add_goers(alloc, collection, name, &mut moves).and(Ok(moves))
}

/// Adds the moves by which an object goes with its access list.
pub(crate) fn add_removal(
    alloc: Global,
    kind: Kind,
    name: &Text,
    moves: &mut Moves,
) -> Result<(), NoMemory>
    ensures { OnOk result (moves.new ≡ moves.old ++ Move.TakeOut (key kind name.now) ∷ Move.TakeList (key kind name.now) ∷ []) }
{
    let object = key_of(alloc, kind, name.as_str())?;
    let list = key_of(alloc, kind, name.as_str())?;
    add_both(moves, Move::TakeOut(object), Move::TakeList(list))
}

/// Adds who goes with an object of the collection.
fn add_goers(
    alloc: Global,
    collection: Collection,
    name: &Text,
    moves: &mut Moves,
) -> Result<(), NoMemory>
    ensures { OnOk result (moves.new ≡ moves.old ++ spec.goers collection name.now) }
{
    match collection {
        Collection::Clients => moves.push(Move::RemoveClient(name.copy(alloc)?)),
        Collection::Nodes | Collection::Roles | Collection::Environments => Ok(()),
    }
}

/// An object that was found to be there is shown.
pub(crate) fn show(alloc: Global, object: Option<&CompactJson>) -> Result<Prepared, NoMemory>
    ensures { IfOk result (λ p. IsAsDecided (Ok p) (reads (shows (spec.or_null (option_copied object.entry)))).answer) }
{
    let reply = shown_object(alloc, object)?;
    Ok(Prepared {
        reply,
        moves: Moves::new(alloc),
    })
}

/// An object takes the place of the one of its key.
pub(crate) fn replace(alloc: Global, key: Key, object: Stored) -> Result<Prepared, NoMemory>
    ensures { IfOk result (λ p. IsAsDecided (Ok p) (spec.replaced key.kind key.name object).answer) }
{
    let reply = reply_copying(alloc, object.text());
    let moves = one_move(alloc, Move::Put(key, object));
    with_moves(reply, moves)
}

/// An object that was found to be there goes by these moves.
pub(crate) fn remove(
    alloc: Global,
    object: Option<&CompactJson>,
    moves: Moves,
) -> Result<Prepared, NoMemory>
    ensures { IfOk result (λ p. IsAsDecided (Ok p) (does_by (shows (spec.or_null (option_copied object.entry))) moves 1).answer) }
{
    with_moves(shown_object(alloc, object), Ok(moves))
}

/// 200 with an object, whose text is copied. One that was found is there.
fn shown_object(alloc: Global, object: Option<&CompactJson>) -> Result<Reply, NoMemory>
    ensures { IfOk result (λ reply. reply ≡ shown_doc (spec.or_null (option_copied object.entry))) }
{
    match object {
        Some(object) => reply_copying(alloc, object),
        None => shown(alloc, &Tree::Null),
    }
}

/// The name of an object.
pub(crate) fn name_of(object: &Stored) -> &str
    ensures { result.now ≡ spec.name_of object.now }
{
    named_by("name", object.tree())
}

//! The routes of data bags and their items.

ghost use Rattle.std.specs.Prelude.{◌≡◌, [], ◌∷◌, ◌++◌, ◌&&◌, map, Ok, IfOk, OnOk};
ghost use Rattle.access_lists.specs.declared.starting.Container.TheVariants as container;
ghost use Rattle.doc_tree.specs.Name.{is_name};
ghost use Rattle.object_store.specs.Items as items;
ghost use Rattle.object_store.specs.Objects.{key};
ghost use Rattle.org_core.specs.Contexts.{seen};
ghost use Rattle.org_core.specs.Creating.{created_by, with_list};
ghost use Rattle.org_core.specs.Outcomes.{IsAsDecided, Looked, shows, tells};
ghost use Rattle.org_requests.specs.Refusals.{Tells, refuses};
ghost use Rattle.org_requests.specs.Replies.{paths_behind};
ghost use Rattle.org_core.specs.States.{has_object, objects_of, state_in};
ghost use Rattle.object_routes.specs.DataBags as spec;
ghost use Rattle.object_routes.specs.Objects as objects;

use crate::objects::{
    add_named, add_removal, lacks_named, listed, name_of, remove, replace, show, told_paths,
};
use crate::operations::DataOperation;
use access_lists::Container;
use doc_tree::{Kind, NoMemory, Steps, Text, Tree, is_name};
use object_finder::Finder;
use object_store::Key;
use org_core::{
    Context, Group, Lent, Move, Moves, Need, Needs, OrgState, Perm, Prepared, Stored, create_by,
    listed_need, named_by, object_in_body, object_named, one_move, or_stop, with_moves,
};
use org_requests::routes::DataRoute;
use org_requests::{Body, Refusal, Request, Stop, Verb, absent, org_uri, shown_key};
use std::alloc::Global;
use std::sync::ledger::Ledger;

/// The group of the routes of data bags and their items.
#[derive(Clone, Copy, Debug)]
pub struct DataBags;

impl Group for DataBags {
    ghost use Rattle.object_routes.specs.DataBags.{data_rules};

    type Route = DataRoute;

    type Operation = DataOperation;

    ghost rules = { λ _. data_rules };

    fn operation<F: Finder>(
        &self,
        alloc: Global,
        _context: Context<'_>,
        _lent: &Lent<'_, F>,
        route: &DataRoute,
        request: &Request,
    ) -> Result<DataOperation, Stop> {
        match route {
            DataRoute::Bags => bags_asked(alloc, request.verb, &request.body),
            DataRoute::Bag(bag) => bag_asked(alloc, bag, request.verb, &request.body),
            DataRoute::Item(bag, id) => item_asked(alloc, bag, id, request.verb, &request.body),
        }
    }

    fn lacks<F: Finder>(
        &self,
        _alloc: Global,
        context: Context<'_>,
        _lent: &Lent<'_, F>,
        operation: &DataOperation,
    ) -> Result<bool, NoMemory> {
        Ok(match operation {
            DataOperation::ListBags | DataOperation::CreateBag(_) => false,
            DataOperation::ListItems(bag)
            | DataOperation::CreateItem(bag, _)
            | DataOperation::RemoveBag(bag) => lacks_named(Kind::Bag, bag, context.state),
            DataOperation::ShowItem(bag, id)
            | DataOperation::ReplaceItem(bag, id, _)
            | DataOperation::RemoveItem(bag, id) => lacks_item(bag, id, context.state),
        })
    }

    fn needs<F: Finder>(
        &self,
        alloc: Global,
        _context: Context<'_>,
        _lent: &Lent<'_, F>,
        operation: &DataOperation,
    ) -> Result<Needs, NoMemory> {
        let mut needs = Needs::new(alloc);
        needs.push(needed(alloc, operation)?)?;
        Ok(needs)
    }

    fn own_refusal<F: Finder>(
        &self,
        _alloc: Global,
        context: Context<'_>,
        _lent: &Lent<'_, F>,
        operation: &DataOperation,
    ) -> Result<Option<Refusal>, NoMemory> {
        Ok(match operation {
            DataOperation::CreateBag(object) => bag_refusal(object, context.state),
            DataOperation::CreateItem(bag, item) => item_refusal(bag, item, context.state),
            DataOperation::ListBags
            | DataOperation::ListItems(_)
            | DataOperation::RemoveBag(_)
            | DataOperation::ShowItem(_, _)
            | DataOperation::ReplaceItem(_, _, _)
            | DataOperation::RemoveItem(_, _) => None,
        })
    }

    fn does<F: Finder, L: Ledger>(
        &self,
        alloc: Global,
        context: Context<'_>,
        _lent: &Lent<'_, F>,
        operation: DataOperation,
        steps: &mut Steps<L>,
    ) -> Result<Prepared, Stop> {
        match operation {
            DataOperation::ListBags => list_bags(alloc, context),
            DataOperation::CreateBag(object) => create_bag(alloc, context, object),
            DataOperation::ListItems(bag) => list_items(alloc, context, bag),
            DataOperation::CreateItem(bag, item) => create_item(alloc, context, bag, item),
            DataOperation::RemoveBag(bag) => remove_bag(alloc, context, bag),
            DataOperation::ShowItem(bag, id) => show_item(alloc, context, bag, id, steps),
            DataOperation::ReplaceItem(bag, id, item) => {
                replace_item(alloc, context, bag, id, item, steps)
            }
            DataOperation::RemoveItem(bag, id) => remove_item(alloc, context, bag, id, steps),
        }
    }
}

/// What is asked of all bags.
fn bags_asked(alloc: Global, verb: Verb, body: &Body) -> Result<DataOperation, Stop>
    ensures { Tells result (spec.bags_asked verb body.now) }
{
    match verb {
        Verb::Get => Ok(DataOperation::ListBags),
        Verb::Post => {
            let object = object_in_body(alloc, Kind::Bag, None, body)?;
            Ok(DataOperation::CreateBag(object))
        }
        Verb::Put | Verb::Delete | Verb::Other => Err(Stop::Refused(Refusal::NotAllowed)),
    }
}

/// What is asked of a bag.
fn bag_asked(alloc: Global, bag: &Text, verb: Verb, body: &Body) -> Result<DataOperation, Stop>
    ensures { Tells result (spec.bag_asked bag.now verb body.now) }
{
    match verb {
        Verb::Get => Ok(DataOperation::ListItems(bag.copy(alloc)?)),
        Verb::Post => post_item(alloc, bag, body),
        Verb::Delete => Ok(DataOperation::RemoveBag(bag.copy(alloc)?)),
        Verb::Put | Verb::Other => Err(Stop::Refused(Refusal::NotAllowed)),
    }
}

fn post_item(alloc: Global, bag: &Text, body: &Body) -> Result<DataOperation, Stop>
    ensures { Tells result (spec.post_item (is_name bag.now) bag.now body.now) }
{
    if !is_name(bag.as_str()) {
        return Err(Stop::Refused(absent(body)));
    }
    let bag = bag.copy(alloc)?;
    Ok(DataOperation::CreateItem(bag, object_in_body(alloc, Kind::Item, None, body)?))
}

/// What is asked of an item.
fn item_asked(
    alloc: Global,
    bag: &Text,
    id: &Text,
    verb: Verb,
    body: &Body,
) -> Result<DataOperation, Stop>
    ensures { Tells result (spec.item_asked bag.now id.now verb body.now) }
{
    match verb {
        Verb::Get => Ok(DataOperation::ShowItem(bag.copy(alloc)?, id.copy(alloc)?)),
        Verb::Put => put_item(alloc, bag, id, body),
        Verb::Delete => Ok(DataOperation::RemoveItem(bag.copy(alloc)?, id.copy(alloc)?)),
        Verb::Post | Verb::Other => Err(Stop::Refused(Refusal::NotAllowed)),
    }
}

fn put_item(alloc: Global, bag: &Text, id: &Text, body: &Body) -> Result<DataOperation, Stop>
    ensures { Tells result (spec.put_item (is_name bag.now && is_name id.now) bag.now id.now body.now) }
{
    if !(is_name(bag.as_str()) && is_name(id.as_str())) {
        return Err(Stop::Refused(absent(body)));
    }
    let bag = bag.copy(alloc)?;
    let name = id.copy(alloc)?;
    Ok(DataOperation::ReplaceItem(bag, name, object_named(alloc, Kind::Item, id, body)?))
}

/// Whether there is no such bag, or it has no item of this id.
fn lacks_item(bag: &Text, id: &Text, state: &OrgState) -> bool
    ensures { result ≡ spec.lacks_item bag.now id.now (state_in state.now) }
{
    let (bag, id) = (bag.as_str(), id.as_str());
    !((is_name(bag) && is_name(id)) && (state.has(Kind::Bag, bag) && state.has_item(bag, id)))
}

/// The permission that an operation needs.
fn needed(alloc: Global, operation: &DataOperation) -> Result<Need, NoMemory>
    ensures { IfOk result (λ need. need ≡ spec.data_need operation.now) }
{
    match operation {
        DataOperation::ListBags => listed_need(alloc, Perm::Read, Kind::Container, "data"),
        DataOperation::CreateBag(_) => listed_need(alloc, Perm::Create, Kind::Container, "data"),
        DataOperation::ListItems(bag) | DataOperation::ShowItem(bag, _) => {
            listed_need(alloc, Perm::Read, Kind::Bag, bag.as_str())
        }
        DataOperation::CreateItem(bag, _) | DataOperation::ReplaceItem(bag, _, _) => {
            listed_need(alloc, Perm::Update, Kind::Bag, bag.as_str())
        }
        DataOperation::RemoveBag(bag) | DataOperation::RemoveItem(bag, _) => {
            listed_need(alloc, Perm::Delete, Kind::Bag, bag.as_str())
        }
    }
}

fn bag_refusal(object: &Stored, state: &OrgState) -> Option<Refusal>
    ensures { result ≡ refuses Refusal.AlreadyExists (has_object (state_in state.now) Kind.Bag (objects.name_of object.now)) }
{
    if state.has(Kind::Bag, name_of(object)) {
        Some(Refusal::AlreadyExists)
    } else {
        None
    }
}

fn item_refusal(bag: &Text, item: &Stored, state: &OrgState) -> Option<Refusal>
    ensures { result ≡ refuses Refusal.AlreadyExists (has_object (state_in state.now) Kind.Item (items.item_name bag.now (spec.id_of item.now))) }
{
    if state.has_item(bag.as_str(), id_of(item)) {
        Some(Refusal::AlreadyExists)
    } else {
        None
    }
}

/// The bags are listed.
fn list_bags(alloc: Global, context: Context<'_>) -> Result<Prepared, Stop>
    ensures { IsAsDecided result (spec.data_does (seen context.entry) DataOperation.ListBags).answer }
{
    let front = bags_front(alloc, context.org)?;
    or_stop(listed(alloc, &front, Kind::Bag, context.state))
}

/// A bag is created.
fn create_bag(alloc: Global, context: Context<'_>, object: Stored) -> Result<Prepared, Stop>
    ensures { IsAsDecided result (spec.data_does (seen context.entry) (DataOperation.CreateBag object)).answer }
{
    match bag_path(alloc, context.org, name_of(&object)) {
        Ok(path) => or_stop(bag_created(alloc, context, path, object)),
        Err(fault) => {
            drop(object);
            Err(Stop::from(fault))
        }
    }
}

fn bag_path(alloc: Global, org: &Text, name: &str) -> Result<Text, NoMemory>
    ensures { IfOk result (λ path. path ≡ spec.bags_front org.now ++ name.now) }
{
    Text::joined(alloc, bags_front(alloc, org)?.as_str(), name)
}

/// 201 with the path of a new bag, which comes with its access list.
fn bag_created(
    alloc: Global,
    context: Context<'_>,
    path: Text,
    object: Stored,
) -> Result<Prepared, NoMemory>
    ensures { IfOk result (λ p. IsAsDecided (Ok p) (created_by path (with_list container.Data (seen context.entry) Kind.Bag (objects.name_of object) object)).answer) }
{
    let mut moves = Moves::new(alloc);
    add_named(
        alloc,
        context,
        Container::Data,
        Kind::Bag,
        object,
        &mut moves,
    )?;
    create_by(alloc, path, moves)
}

/// A bag's items are listed.
fn list_items(alloc: Global, context: Context<'_>, bag: Text) -> Result<Prepared, Stop>
    ensures { IsAsDecided result (spec.data_does (seen context.entry) (DataOperation.ListItems bag)).answer }
{
    let front = items_front(alloc, context.org, &bag)?;
    or_stop(items_listed(alloc, &front, &bag, context.state))
}

fn items_front(alloc: Global, org: &Text, bag: &Text) -> Result<Text, NoMemory>
    ensures { IfOk result (λ front. front ≡ spec.bags_front org.now ++ items.item_front bag.now) }
{
    let bags = bags_front(alloc, org)?;
    Text::joined(alloc, bags.as_str(), item_front(alloc, bag)?.as_str())
}

/// 200 with the ids of a bag's items, each with its path behind this front.
fn items_listed(
    alloc: Global,
    front: &Text,
    bag: &Text,
    state: &OrgState,
) -> Result<Prepared, NoMemory>
    ensures { IfOk result (λ p. IsAsDecided (Ok p) (tells (shows (paths_behind front.now (items.ids_in bag.now (objects_of (state_in state.now)))))).answer) }
{
    let ids = state.ids(alloc, bag.as_str())?;
    told_paths(alloc, front, ids.as_slice())
}

/// An item is created.
fn create_item(
    alloc: Global,
    context: Context<'_>,
    bag: Text,
    item: Stored,
) -> Result<Prepared, Stop>
    ensures { IsAsDecided result (spec.data_does (seen context.entry) (DataOperation.CreateItem bag item)).answer }
{
    match item_place(alloc, context.org, &bag, id_of(&item)) {
        Ok((path, key)) => or_stop(item_created(alloc, path, key, item)),
        Err(fault) => {
            drop(item);
            Err(Stop::from(fault))
        }
    }
}

/// The path of an item, and the key under which it is kept.
fn item_place(alloc: Global, org: &Text, bag: &Text, id: &str) -> Result<(Text, Key), NoMemory>
    ensures path { IfOk result (λ place. place.0 ≡ spec.bags_front org.now ++ items.item_name bag.now id.now) }
    ensures key { IfOk result (λ place. place.1 ≡ record { kind = Kind.Item; name = items.item_name bag.now id.now }) }
{
    let front = bags_front(alloc, org)?;
    let key = item_key(alloc, bag, id)?;
    Ok((Text::joined(alloc, front.as_str(), key.name.as_str())?, key))
}

/// 201 with the path of a new item.
fn item_created(alloc: Global, path: Text, key: Key, item: Stored) -> Result<Prepared, NoMemory>
    ensures { IfOk result (λ p. IsAsDecided (Ok p) (created_by path (Move.Put key item ∷ [])).answer) }
{
    let moves = one_move(alloc, Move::Put(key, item))?;
    create_by(alloc, path, moves)
}

/// A bag goes with its items.
fn remove_bag(alloc: Global, context: Context<'_>, bag: Text) -> Result<Prepared, Stop>
    ensures { IsAsDecided result (spec.data_does (seen context.entry) (DataOperation.RemoveBag bag)).answer }
{
    let moves = bag_removal(alloc, &bag, context.state);
    or_stop(with_moves(shown_key(alloc, "name", Tree::Words(bag)), moves))
}

/// Each of a bag's items goes, and then the bag with its access list.
fn bag_removal(alloc: Global, bag: &Text, state: &OrgState) -> Result<Moves, NoMemory>
    ensures { IfOk result (λ moves. moves ≡ spec.bag_removal bag.now (objects_of (state_in state.now))) }
{
    let ids = state.ids(alloc, bag.as_str())?;
    let mut moves = Moves::new(alloc);
    add_bag_removal(alloc, bag, ids.as_slice(), &mut moves)?;
    Ok(moves)
}

fn add_bag_removal(
    alloc: Global,
    bag: &Text,
    ids: &[Text],
    moves: &mut Moves,
) -> Result<(), NoMemory>
    requires { moves.old ≡ [] }
    ensures { OnOk result (moves.new ≡ map (λ id. Move.TakeOut (key Kind.Item (items.item_name bag.now id))) ids.now ++ Move.TakeOut (key Kind.Bag bag.now) ∷ Move.TakeList (key Kind.Bag bag.now) ∷ []) }
{
    for id in ids {
        moves.push(item_goes(alloc, bag, id)?)?;
    }
    add_removal(alloc, Kind::Bag, bag, moves)
}

/// The move by which an item goes.
fn item_goes(alloc: Global, bag: &Text, id: &Text) -> Result<Move, NoMemory>
    ensures { IfOk result (λ one. one ≡ Move.TakeOut (key Kind.Item (items.item_name bag.now id.now))) }
{
    Ok(Move::TakeOut(item_key(alloc, bag, id.as_str())?))
}

/// An item is shown.
fn show_item<L: Ledger>(
    alloc: Global,
    context: Context<'_>,
    bag: Text,
    id: Text,
    steps: &mut Steps<L>,
) -> Result<Prepared, Stop>
    ensures done { IsAsDecided result (spec.data_does (seen context.entry) (DataOperation.ShowItem bag id)).answer }
    ensures looked { Looked result (spec.data_does (seen context.entry) (DataOperation.ShowItem bag id)).looks steps.old steps.new }
{
    or_stop(show(alloc, context.state.item(bag.as_str(), id.as_str(), steps)))
}

/// An item takes the place of the one that was there.
fn replace_item<L: Ledger>(
    alloc: Global,
    context: Context<'_>,
    bag: Text,
    id: Text,
    item: Stored,
    steps: &mut Steps<L>,
) -> Result<Prepared, Stop>
    ensures done { IsAsDecided result (spec.data_does (seen context.entry) (DataOperation.ReplaceItem bag id item)).answer }
    ensures looked { Looked result (spec.data_does (seen context.entry) (DataOperation.ReplaceItem bag id item)).looks steps.old steps.new }
{
    let _replaced = context.state.item(bag.as_str(), id.as_str(), steps);
    match item_key(alloc, &bag, id.as_str()) {
        Ok(key) => or_stop(replace(alloc, key, item)),
        Err(fault) => {
            drop(item);
            Err(Stop::from(fault))
        }
    }
}

/// An item goes.
fn remove_item<L: Ledger>(
    alloc: Global,
    context: Context<'_>,
    bag: Text,
    id: Text,
    steps: &mut Steps<L>,
) -> Result<Prepared, Stop>
    ensures done { IsAsDecided result (spec.data_does (seen context.entry) (DataOperation.RemoveItem bag id)).answer }
    ensures looked { Looked result (spec.data_does (seen context.entry) (DataOperation.RemoveItem bag id)).looks steps.old steps.new }
{
    let moves = one_move(alloc, item_goes(alloc, &bag, &id)?)?;
    let item = context.state.item(bag.as_str(), id.as_str(), steps);
    or_stop(remove(alloc, item, moves))
}

/// The front of the paths of data bags.
fn bags_front(alloc: Global, org: &Text) -> Result<Text, NoMemory>
    ensures { IfOk result (λ front. front ≡ spec.bags_front org.now) }
{
    Text::joined(alloc, org_uri(alloc, org)?.as_str(), "/data/")
}

/// The front of the names under which a bag's items are kept.
fn item_front(alloc: Global, bag: &Text) -> Result<Text, NoMemory>
    ensures { IfOk result (λ front. front ≡ items.item_front bag.now) }
{
    Text::joined(alloc, bag.as_str(), "/")
}

/// The key under which an item is kept.
fn item_key(alloc: Global, bag: &Text, id: &str) -> Result<Key, NoMemory>
    ensures { IfOk result (λ key. key ≡ record { kind = Kind.Item; name = items.item_name bag.now id.now }) }
{
    Ok(Key {
        kind: Kind::Item,
        name: Text::joined(alloc, item_front(alloc, bag)?.as_str(), id)?,
    })
}

/// The id of an item.
fn id_of(item: &Stored) -> &str
    ensures { result.now ≡ spec.id_of item.now }
{
    named_by("id", item.tree())
}

//! The errand that words spell.

ghost use Rattle.std.specs.Prelude.{◌≡◌, ◌↔◌, ◌&&◌, IfOk, None, Some, Err, bytes_eq, codes, if◌then◌else◌};
ghost use Rattle.knife_errands.specs.declared.errands.Errand.TheVariants as errands;
ghost use Rattle.knife_errands.specs.declared.errands.FileKind.TheVariants as files;
ghost use Rattle.knife_errands.specs.declared.errands.Thing.TheVariants as things;
ghost use Rattle.knife_errands.specs.Kinds.{is_filed};
ghost use Rattle.knife_errands.specs.Outcomes.{Finds};
ghost use Rattle.knife_errands.specs.Words as spec;

use crate::errands::{Errand, FileKind, Kind, Listing, RunListChange, Step, Thing};
use crate::faults::KnifeFault;
use crate::kinds::kind_in;
use doc_tree::{NoMemory, Text};
use std::alloc::Global;

/// The errand that the words behind the options of `knife` spell. It is `NotACommand` exactly where they spell none, and
/// only an errand takes memory. A name may be any text.
pub fn read_words(alloc: Global, words: &[Text]) -> Result<Errand, KnifeFault>
    ensures errand { IfOk result (λ errand. spec.errand_in words.now ≡ Some errand) }
    ensures none { (result ≡ Err KnifeFault.NotACommand) ↔ (spec.errand_in words.now ≡ None) }
{
    match errand_in(alloc, words) {
        Ok(Some(errand)) => Ok(errand),
        Ok(None) => Err(KnifeFault::NotACommand),
        Err(NoMemory) => Err(KnifeFault::NoMemory),
    }
}

fn errand_in(alloc: Global, words: &[Text]) -> Result<Option<Errand>, NoMemory>
    ensures { Finds result (spec.errand_in words.now) }
{
    match words {
        [] => Ok(None),
        [word, words @ ..] => errand_with(alloc, word.as_str(), words),
    }
}

fn errand_with(alloc: Global, word: &str, words: &[Text]) -> Result<Option<Errand>, NoMemory>
    ensures { Finds result (spec.errand_with word.now words.now) }
{
    match word {
        "data" => data_errand(alloc, words),
        "user" => Ok(user_errand(words)),
        "cookbook" => cookbook_errand(alloc, words),
        "search" => search_errand(alloc, words),
        "raw" => raw_errand(alloc, words),
        _ => match kind_in(word) {
            Some(kind) => kind_errand(alloc, kind, words),
            None => Ok(None),
        },
    }
}

fn kind_errand(alloc: Global, kind: Kind, words: &[Text]) -> Result<Option<Errand>, NoMemory>
    ensures { Finds result (spec.kind_errand kind words.now) }
{
    match words {
        [verb] => Ok(listed(verb.as_str(), Listing::Of(kind))),
        [verb, name] => named_errand(alloc, kind, verb.as_str(), name),
        [first, second, path] => file_errand(alloc, kind, first.as_str(), second.as_str(), path),
        [first, second, name, item] => match change_of(kind, first.as_str(), second.as_str()) {
            Some(change) => Ok(Some(run_list(alloc, name, change, item)?)),
            None => Ok(None),
        },
        _ => Ok(None),
    }
}

fn listed(verb: &str, listing: Listing) -> Option<Errand>
    ensures { result ≡ spec.listed verb.now listing }
{
    (verb == "list").then_some(Errand::One(Step::List(listing)))
}

fn named_errand(
    alloc: Global,
    kind: Kind,
    verb: &str,
    name: &Text,
) -> Result<Option<Errand>, NoMemory>
    ensures { Finds result (spec.named_errand kind verb.now name.now) }
{
    if verb == "show" {
        return Ok(Some(Errand::One(Step::Show(named(alloc, kind, name)?))));
    }
    if verb == "create" && kind.is_created() {
        return Ok(Some(Errand::One(Step::Create(kind, name.copy(alloc)?))));
    }
    if verb == "delete" && kind.is_deleted() {
        return Ok(Some(Errand::One(Step::Delete(named(alloc, kind, name)?))));
    }
    Ok(None)
}

fn named(alloc: Global, kind: Kind, name: &Text) -> Result<Thing, NoMemory>
    ensures { IfOk result (λ thing. thing ≡ things.Named kind name.now) }
{
    Ok(Thing::Named(kind, name.copy(alloc)?))
}

fn file_errand(
    alloc: Global,
    kind: Kind,
    first: &str,
    second: &str,
    path: &Text,
) -> Result<Option<Errand>, NoMemory>
    ensures { Finds result (if◌then◌else◌ (is_filed kind) (spec.filed first.now second.now (files.Object kind) path.now) None) }
{
    if kind.is_filed() && is_from_file(first, second) {
        return Ok(Some(Errand::FromFile(FileKind::Object(kind), path.copy(alloc)?)));
    }
    Ok(None)
}

fn is_from_file(first: &str, second: &str) -> bool
    ensures { result ≡ (bytes_eq first.now (codes "from") && bytes_eq second.now (codes "file")) }
{
    first == "from" && second == "file"
}

fn change_of(kind: Kind, first: &str, second: &str) -> Option<RunListChange>
    ensures { result ≡ spec.change_of kind first.now second.now }
{
    if kind.has_run_list() && first == "run_list" {
        change_in(second)
    } else {
        None
    }
}

fn change_in(word: &str) -> Option<RunListChange>
    ensures { result ≡ spec.change_in word.now }
{
    match word {
        "add" => Some(RunListChange::Add),
        "remove" => Some(RunListChange::Remove),
        _ => None,
    }
}

fn run_list(
    alloc: Global,
    node: &Text,
    change: RunListChange,
    item: &Text,
) -> Result<Errand, NoMemory>
    ensures { IfOk result (λ errand. errand ≡ errands.RunList node.now change item.now) }
{
    let node = node.copy(alloc)?;
    let item = item.copy(alloc)?;
    Ok(Errand::RunList { node, change, item })
}

fn data_errand(alloc: Global, words: &[Text]) -> Result<Option<Errand>, NoMemory>
    ensures { Finds result (spec.data_errand words.now) }
{
    match words {
        [] => Ok(None),
        [word, words @ ..] => {
            if word.as_str() == "bag" {
                bag_errand(alloc, words)
            } else {
                Ok(None)
            }
        }
    }
}

fn bag_errand(alloc: Global, words: &[Text]) -> Result<Option<Errand>, NoMemory>
    ensures { Finds result (spec.bag_errand words.now) }
{
    match words {
        [verb] => Ok(listed(verb.as_str(), Listing::Of(Kind::DataBag))),
        [verb, bag] => bag_named(alloc, verb.as_str(), bag),
        [verb, bag, id] => item_shown(alloc, verb.as_str(), bag, id),
        [first, second, bag, path] => item_filed(alloc, first.as_str(), second.as_str(), bag, path),
        _ => Ok(None),
    }
}

fn bag_named(alloc: Global, verb: &str, bag: &Text) -> Result<Option<Errand>, NoMemory>
    ensures { Finds result (spec.bag_named verb.now bag.now) }
{
    if verb == "show" {
        return Ok(Some(Errand::One(Step::List(Listing::Bag(bag.copy(alloc)?)))));
    }
    if verb == "create" {
        return Ok(Some(Errand::One(Step::Create(Kind::DataBag, bag.copy(alloc)?))));
    }
    if verb == "delete" {
        return Ok(Some(Errand::One(Step::Delete(named(alloc, Kind::DataBag, bag)?))));
    }
    Ok(None)
}

fn item_shown(alloc: Global, verb: &str, bag: &Text, id: &Text) -> Result<Option<Errand>, NoMemory>
    ensures { Finds result (spec.item_shown verb.now bag.now id.now) }
{
    if verb == "show" {
        let bag = bag.copy(alloc)?;
        let id = id.copy(alloc)?;
        return Ok(Some(Errand::One(Step::Show(Thing::Item { bag, id }))));
    }
    Ok(None)
}

fn item_filed(
    alloc: Global,
    first: &str,
    second: &str,
    bag: &Text,
    path: &Text,
) -> Result<Option<Errand>, NoMemory>
    ensures { Finds result (spec.filed first.now second.now (files.Item bag.now) path.now) }
{
    if is_from_file(first, second) {
        let bag = bag.copy(alloc)?;
        let path = path.copy(alloc)?;
        return Ok(Some(Errand::FromFile(FileKind::Item(bag), path)));
    }
    Ok(None)
}

fn user_errand(words: &[Text]) -> Option<Errand>
    ensures { result ≡ spec.user_errand words.now }
{
    match words {
        [verb] => listed(verb.as_str(), Listing::Users),
        _ => None,
    }
}

fn cookbook_errand(alloc: Global, words: &[Text]) -> Result<Option<Errand>, NoMemory>
    ensures { Finds result (spec.cookbook_errand words.now) }
{
    match words {
        [verb] => Ok(listed(verb.as_str(), Listing::Cookbooks)),
        [verb, name, version] => of_version(alloc, verb.as_str(), name, version),
        _ => Ok(None),
    }
}

fn of_version(
    alloc: Global,
    verb: &str,
    name: &Text,
    version: &Text,
) -> Result<Option<Errand>, NoMemory>
    ensures { Finds result (spec.of_version verb.now (things.Cookbook name.now version.now)) }
{
    if verb == "show" {
        return Ok(Some(Errand::One(Step::Show(cookbook(alloc, name, version)?))));
    }
    if verb == "delete" {
        return Ok(Some(Errand::One(Step::Delete(cookbook(alloc, name, version)?))));
    }
    Ok(None)
}

fn cookbook(alloc: Global, name: &Text, version: &Text) -> Result<Thing, NoMemory>
    ensures { IfOk result (λ thing. thing ≡ things.Cookbook name.now version.now) }
{
    let name = name.copy(alloc)?;
    let version = version.copy(alloc)?;
    Ok(Thing::Cookbook { name, version })
}

fn search_errand(alloc: Global, words: &[Text]) -> Result<Option<Errand>, NoMemory>
    ensures { Finds result (spec.search_errand words.now) }
{
    match words {
        [index, query] => {
            let index = index.copy(alloc)?;
            let query = query.copy(alloc)?;
            Ok(Some(Errand::One(Step::Search { index, query })))
        }
        _ => Ok(None),
    }
}

fn raw_errand(alloc: Global, words: &[Text]) -> Result<Option<Errand>, NoMemory>
    ensures { Finds result (spec.raw_errand words.now) }
{
    match words {
        [path] => Ok(Some(Errand::One(Step::Raw(path.copy(alloc)?)))),
        _ => Ok(None),
    }
}

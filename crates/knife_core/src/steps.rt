//! Steps of a talk that need no server: requests that are made, and bodies that are read.
ghost use Rattle.std.specs.Prelude.{◌≡◌, List, ℕ, Option};
ghost use Rattle.peer_wire.specs.declared.asks.Ask as peer;
ghost use Rattle.talks.specs.Endings.{Steps, formed as goes_on};
ghost use Rattle.knife_errands.specs.Outcomes.{TellsBody};
ghost use Rattle.knife_errands.specs.Printing as printing;
ghost use Rattle.knife_errands.specs.Requests as requests;
ghost use Rattle.knife_errands.specs.RunLists as run_lists;
ghost use Rattle.knife_core.specs.Table.{KnifeTalk, prints};
ghost use Rattle.knife_core.specs.Bodies as spec;

use doc_tree::{Bytes, NoMemory, Text};
use knife_errands::{
    BodyFault, RunListChange, Step, changed_request, node_request, printed, printed_items,
    request_of,
};
use peer_wire::{Ask, Whom};
use std::alloc::Global;
use talks::{Got, Halt};

/// The request of a step.
pub(crate) fn step_asked(alloc: Global, step: &Step, whom: &Whom) -> Result<Ask, Halt>
    ensures { (next : peer.Ask → KnifeTalk) → Steps next (next (requests.request_of step.now whom.now)) result }
{
    match request_of(alloc, step, whom) {
        Ok(ask) => Ok(ask),
        Err(NoMemory) => Err(Halt::NoMemory),
    }
}

/// The GET of a node.
pub(crate) fn node_asked(alloc: Global, node: &Text, whom: &Whom) -> Result<Ask, Halt>
    ensures { (next : peer.Ask → KnifeTalk) → Steps next (next (run_lists.node_request node.now whom.now)) result }
{
    match node_request(alloc, node, whom) {
        Ok(ask) => Ok(ask),
        Err(NoMemory) => Err(Halt::NoMemory),
    }
}

/// What a step prints of the body that came.
pub(crate) fn step_printed(alloc: Global, step: &Step, got: Got) -> Result<Bytes, Halt>
    ensures { Steps prints (goes_on got.ask (printing.printed step.now got.body) prints) result }
{
    let read = printed(alloc, step, &got.body);
    printed_of(got, read)
}

/// The items of the node that came, as they are printed.
pub(crate) fn items_printed(alloc: Global, got: Got) -> Result<Bytes, Halt>
    ensures { Steps prints (goes_on got.ask (run_lists.printed_items got.body) prints) result }
{
    let read = printed_items(alloc, &got.body);
    printed_of(got, read)
}

/// The PUT of the node that came, with its run list changed.
pub(crate) fn change_asked(
    alloc: Global,
    whom: &Whom,
    node: &Text,
    change: RunListChange,
    item: &Text,
    got: Got,
) -> Result<Ask, Halt>
    ensures { (next : peer.Ask → KnifeTalk) → Steps next (goes_on got.ask (run_lists.changed_request node.now change item.now whom.now got.body) next) result }
{
    let read = changed_request(alloc, node, change, item, whom, &got.body);
    asked_of(got, read)
}

// What was read of a body is printed.
fn printed_of(got: Got, read: Result<Bytes, BodyFault>) -> Result<Bytes, Halt>
    ensures { (due : Option (List ℕ)) → TellsBody read due → Steps prints (goes_on got.ask due prints) result }
{
    match read {
        Ok(bytes) => {
            drop(got);
            Ok(bytes)
        }
        Err(fault) => Err(halt_of(got, fault)),
    }
}

// What was read of a body is asked.
fn asked_of(got: Got, read: Result<Ask, BodyFault>) -> Result<Ask, Halt>
    ensures { (due : Option peer.Ask) (next : peer.Ask → KnifeTalk) → TellsBody read due → Steps next (goes_on got.ask due next) result }
{
    match read {
        Ok(ask) => {
            drop(got);
            Ok(ask)
        }
        Err(fault) => Err(halt_of(got, fault)),
    }
}

// Why nothing was read of a body.
fn halt_of(got: Got, fault: BodyFault) -> Halt
    ensures { result ≡ spec.halt_of got.ask fault }
{
    match fault {
        BodyFault::Malformed => {
            let Got {
                ask,
                status: _,
                body: _,
            } = got;
            Halt::Malformed(ask)
        }
        BodyFault::NoMemory => {
            drop(got);
            Halt::NoMemory
        }
    }
}

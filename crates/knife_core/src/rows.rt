//! What each kind of errand says to the server.
ghost use Rattle.std.specs.Prelude.{◌≡◌, ◌≤◌};
ghost use Rattle.talks.specs.Endings.{Parts, want as wants, formed};
ghost use Rattle.talks.specs.Exchanges.{line as lines, HasHaltCause};
ghost use Rattle.knife_errands.specs.Printing as printing;
ghost use Rattle.knife_errands.specs.RunLists as run_lists;
ghost use Rattle.knife_core.specs.Table as spec;
ghost use Rattle.knife_core.specs.Table.{prints};

use crate::steps::{change_asked, items_printed, node_asked, step_asked, step_printed};
use doc_tree::{Bytes, Text};
use knife_errands::{RunListChange, Sent, Step};
use outside_link::Link;
use peer_wire::{Ask, Room, Whom};
use std::alloc::Global;
use talks::{Got, Halt, want, want_or};

/// One request, and what is printed of its reply.
pub(crate) fn one<L: Link>(
    alloc: Global,
    whom: &Whom,
    step: &Step,
    link: &mut L,
    room: &mut Room,
) -> Result<Bytes, Halt>
    ensures parts { Parts whom.now prints (spec.one whom.now step.now) result (lines room.old (L.left link.old) (L.gained link.old)) (lines room.new (L.left link.new) (L.gained link.new)) }
    ensures input { L.input link.new ≡ L.input link.old }
    ensures cause { HasHaltCause (L.Sink.faults link.old) (L.Sink.faults link.new) result }
{
    match step_asked(alloc, step, whom) {
        Ok(ask) => one_wanted(alloc, whom, step, ask, link, room),
        Err(halt) => Err(halt),
    }
}

fn one_wanted<L: Link>(
    alloc: Global,
    whom: &Whom,
    step: &Step,
    ask: Ask,
    link: &mut L,
    room: &mut Room,
) -> Result<Bytes, Halt>
    ensures parts { Parts whom.now prints (spec.one_of step.now ask) result (lines room.old (L.left link.old) (L.gained link.old)) (lines room.new (L.left link.new) (L.gained link.new)) }
    ensures input { L.input link.new ≡ L.input link.old }
    ensures cause { HasHaltCause (L.Sink.faults link.old) (L.Sink.faults link.new) result }
{
    match want(alloc, whom, ask, link, room) {
        Ok(got) => step_printed(alloc, step, got),
        Err(halt) => Err(halt),
    }
}

/// A GET of a node, and a PUT of it with its run list changed.
pub(crate) fn run_list<L: Link>(
    alloc: Global,
    whom: &Whom,
    node: &Text,
    change: RunListChange,
    item: &Text,
    link: &mut L,
    room: &mut Room,
) -> Result<Bytes, Halt>
    ensures parts { Parts whom.now prints (spec.run_list whom.now node.now change item.now) result (lines room.old (L.left link.old) (L.gained link.old)) (lines room.new (L.left link.new) (L.gained link.new)) }
    ensures input { L.input link.new ≡ L.input link.old }
    ensures cause { HasHaltCause (L.Sink.faults link.old) (L.Sink.faults link.new) result }
{
    match node_asked(alloc, node, whom) {
        Ok(ask) => node_wanted(alloc, whom, node, change, item, ask, link, room),
        Err(halt) => Err(halt),
    }
}

fn node_wanted<L: Link>(
    alloc: Global,
    whom: &Whom,
    node: &Text,
    change: RunListChange,
    item: &Text,
    ask: Ask,
    link: &mut L,
    room: &mut Room,
) -> Result<Bytes, Halt>
    ensures parts { Parts whom.now prints (spec.run_list_of whom.now node.now change item.now ask) result (lines room.old (L.left link.old) (L.gained link.old)) (lines room.new (L.left link.new) (L.gained link.new)) }
    ensures input { L.input link.new ≡ L.input link.old }
    ensures cause { HasHaltCause (L.Sink.faults link.old) (L.Sink.faults link.new) result }
{
    match want(alloc, whom, ask, link, room) {
        Ok(got) => node_changed(alloc, whom, node, change, item, got, link, room),
        Err(halt) => Err(halt),
    }
}

fn node_changed<L: Link>(
    alloc: Global,
    whom: &Whom,
    node: &Text,
    change: RunListChange,
    item: &Text,
    got: Got,
    link: &mut L,
    room: &mut Room,
) -> Result<Bytes, Halt>
    ensures parts { Parts whom.now prints (spec.node_came whom.now node.now change item.now got.ask got.body) result (lines room.old (L.left link.old) (L.gained link.old)) (lines room.new (L.left link.new) (L.gained link.new)) }
    ensures input { L.input link.new ≡ L.input link.old }
    ensures cause { HasHaltCause (L.Sink.faults link.old) (L.Sink.faults link.new) result }
{
    match change_asked(alloc, whom, node, change, item, got) {
        Ok(ask) => items_wanted(alloc, whom, ask, link, room),
        Err(halt) => Err(halt),
    }
}

fn items_wanted<L: Link>(
    alloc: Global,
    whom: &Whom,
    ask: Ask,
    link: &mut L,
    room: &mut Room,
) -> Result<Bytes, Halt>
    ensures parts { Parts whom.now prints (spec.changed_of ask) result (lines room.old (L.left link.old) (L.gained link.old)) (lines room.new (L.left link.new) (L.gained link.new)) }
    ensures input { L.input link.new ≡ L.input link.old }
    ensures cause { HasHaltCause (L.Sink.faults link.old) (L.Sink.faults link.new) result }
{
    match want(alloc, whom, ask, link, room) {
        Ok(got) => items_printed(alloc, got),
        Err(halt) => Err(halt),
    }
}

/// A PUT of what a file holds, and a POST where that is 404.
pub(crate) fn send<L: Link>(
    alloc: Global,
    whom: &Whom,
    sent: Sent,
    link: &mut L,
    room: &mut Room,
) -> Result<Bytes, Halt>
    ensures parts { Parts whom.now prints (spec.sends sent) result (lines room.old (L.left link.old) (L.gained link.old)) (lines room.new (L.left link.new) (L.gained link.new)) }
    ensures input { L.input link.new ≡ L.input link.old }
    ensures cause { HasHaltCause (L.Sink.faults link.old) (L.Sink.faults link.new) result }
{
    let Sent { put, post, line } = sent;
    match want_or(alloc, whom, 404, put, link, room) {
        Ok(Some(got)) => {
            drop(got);
            drop(post);
            Ok(line)
        }
        Ok(None) => send_new(alloc, whom, post, line, link, room),
        Err(halt) => {
            drop(post);
            drop(line);
            Err(halt)
        }
    }
}

fn send_new<L: Link>(
    alloc: Global,
    whom: &Whom,
    post: Ask,
    line: Bytes,
    link: &mut L,
    room: &mut Room,
) -> Result<Bytes, Halt>
    ensures parts { Parts whom.now prints (spec.posts post line) result (lines room.old (L.left link.old) (L.gained link.old)) (lines room.new (L.left link.new) (L.gained link.new)) }
    ensures input { L.input link.new ≡ L.input link.old }
    ensures cause { HasHaltCause (L.Sink.faults link.old) (L.Sink.faults link.new) result }
{
    match want(alloc, whom, post, link, room) {
        Ok(got) => {
            drop(got);
            Ok(line)
        }
        Err(halt) => {
            drop(line);
            Err(halt)
        }
    }
}

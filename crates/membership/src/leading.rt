//! Which group leads to which: it lists it, or lists one that leads to it.
ghost use Rattle.std.specs.Prelude.{ℕ, ◌≡◌, ◌↔◌, ◌+◌, ◌*◌, ◌<◌, ◌≤◌, ◌||◌, ◌&&◌, ◌==◌, [], length, false, IsTrue, IfOk, OnOk, bytes_eq, vec_capacity};
ghost use Rattle.indexmap.specs.IndexMap.{insert_entry};
ghost use Rattle.membership.specs.Leading.{at, lists_at, listing, member_at, IsLeading, IsMemberBeyond, IsMemberFrom, IsSquare, KeepsLists, Notes, Tells, UnlessGroup};

use crate::group::Group;
use crate::member_kind::MemberKind;
use doc_tree::{NoMemory, Text};
use indexmap::IndexMap;
use std::alloc::Global;
use std::hash::RandomState;

/// Groups by the hashes of their names.
pub(crate) type Hashed = IndexMap<Text, Group, RandomState>;

/// Works out which group leads to which, in the place of what was there. It takes no memory.
///
/// The square has a row and a column for each group, by the groups' places, and nothing where no group
/// lists another.
pub(crate) fn work_out(items: &Hashed, cells: &mut Vec<bool>)
    requires { length items.now.entries * length items.now.entries ≤ vec_capacity cells.old }
    ensures leading { Tells items.now.entries cells.new.items }
    ensures room { vec_capacity cells.old ≤ vec_capacity cells.new }
{
    cells.clear();
    if any_lists(items) {
        note_rows(items, cells);
        lead_on(items.len(), cells);
    }
}

/// Works out anew which group leads to which where a member of this kind came or went: what users and
/// clients do changes nothing. It takes no memory.
pub(crate) fn follow(kind: MemberKind, items: &Hashed, cells: &mut Vec<bool>)
    requires room { length items.now.entries * length items.now.entries ≤ vec_capacity cells.old }
    requires leading { UnlessGroup kind (Tells items.now.entries cells.old.items) }
    ensures leading { Tells items.now.entries cells.new.items }
    ensures room { vec_capacity cells.old ≤ vec_capacity cells.new }
{
    match kind {
        MemberKind::User | MemberKind::Client => {}
        MemberKind::Group => work_out(items, cells),
    }
}

/// Works out anew which group leads to which, but where what is there is known to be that. It takes no
/// memory.
pub(crate) fn work_out_unless(known: bool, items: &Hashed, cells: &mut Vec<bool>)
    requires room { length items.now.entries * length items.now.entries ≤ vec_capacity cells.old }
    requires known { IsTrue known → Tells items.now.entries cells.old.items }
    ensures leading { Tells items.now.entries cells.new.items }
    ensures room { vec_capacity cells.old ≤ vec_capacity cells.new }
{
    if !known {
        work_out(items, cells);
    }
}

/// Whether a group of this name is there and lists what another does, so that the other may take its place
/// and leave which group leads to which as it is.
pub(crate) fn lists_alike(items: &Hashed, name: &Text, group: &Group) -> bool
    ensures { IsTrue result → KeepsLists items.now.entries (insert_entry bytes_eq items.now.entries name.now group.now) }
{
    match items.get(name) {
        Some(old) => old.lists_alike(group),
        None => false,
    }
}

/// Which of some groups leads to which, in memory of its own.
pub(crate) fn worked_out(alloc: Global, items: &Hashed) -> Result<Vec<bool>, NoMemory>
    ensures room { IfOk result (λ cells. length items.now.entries * length items.now.entries ≤ vec_capacity cells) }
    ensures tells { IfOk result (λ cells. Tells items.now.entries cells.items) }
{
    let Some(square) = items.len().checked_mul(items.len()) else {
        return Err(NoMemory);
    };
    let mut cells = Vec::with_capacity(alloc, square)?;
    work_out(items, &mut cells);
    Ok(cells)
}

/// Makes room for a square of `count` further rows and columns, where there isn't any yet: `most` is the
/// number of rows and columns for which there is.
pub(crate) fn reserve_square(
    rows: usize,
    count: usize,
    most: &mut usize,
    cells: &mut Vec<bool>,
) -> Result<(), NoMemory>
    requires { most.old * most.old ≤ vec_capacity cells.old }
    ensures cells { cells.new.items ≡ cells.old.items }
    ensures room { most.new * most.new ≤ vec_capacity cells.new }
    ensures most { most.old ≤ most.new }
    ensures ok { OnOk result (rows + count ≤ most.new) }
{
    let Some(wanted) = rows.checked_add(count) else {
        return Err(NoMemory);
    };
    if wanted <= *most {
        return Ok(());
    }
    let Some(square) = wanted.checked_mul(wanted) else {
        return Err(NoMemory);
    };
    cells.reserve(square.saturating_sub(cells.len()))?;
    *most = wanted;
    Ok(())
}

fn any_lists(items: &Hashed) -> bool
    ensures { result ≡ false → (from to : ℕ) → lists_at (listing items.now.entries) from to ≡ false }
{
    for place in 0..items.len() {
        if lists_any(items, place) {
            return true;
        }
    }
    false
}

// Whether the group at a place lists any.
fn lists_any(items: &Hashed, place: usize) -> bool
    ensures { result ≡ false → (to : ℕ) → lists_at (listing items.now.entries) place to ≡ false }
{
    match items.get_index(place) {
        Some((_, group)) => group.lists_any(),
        None => false,
    }
}

// Whether the group at one place lists the one at another.
fn lists(items: &Hashed, from: usize, to: usize) -> bool
    ensures { result ≡ lists_at (listing items.now.entries) from to }
{
    let Some((_, group)) = items.get_index(from) else {
        return false;
    };
    match items.get_index(to) {
        Some((name, _)) => group.lists(name),
        None => false,
    }
}

// Writes which group lists which, row by row.
fn note_rows(items: &Hashed, cells: &mut Vec<bool>)
    requires empty { cells.old.items ≡ [] }
    requires room { length items.now.entries * length items.now.entries ≤ vec_capacity cells.old }
    ensures noted { Notes (length items.now.entries) (listing items.now.entries) (length items.now.entries * length items.now.entries) cells.new.items }
    ensures room { vec_capacity cells.new ≡ vec_capacity cells.old }
{
    for from in 0..items.len() {
        note_row(items, from, cells);
    }
}

// Writes which groups the one at a place lists.
fn note_row(items: &Hashed, from: usize, cells: &mut Vec<bool>)
    requires within { from < length items.now.entries }
    requires noted { Notes (length items.now.entries) (listing items.now.entries) (from * length items.now.entries) cells.old.items }
    requires room { length items.now.entries * length items.now.entries ≤ vec_capacity cells.old }
    ensures noted { Notes (length items.now.entries) (listing items.now.entries) ((from + 1) * length items.now.entries) cells.new.items }
    ensures room { vec_capacity cells.new ≡ vec_capacity cells.old }
{
    for to in 0..items.len() {
        cells.push_reserved(lists(items, from, to));
    }
}

// Of a square that has who lists whom it makes one that has who leads to whom: place by place, whoever
// leads to that place leads wherever it leads.
fn lead_on(count: usize, cells: &mut [bool])
    requires { length cells.old ≡ count * count }
    ensures { IsLeading count (at count cells.old) (at count cells.new) }
{
    for through in 0..count {
        lead_through(count, through, cells);
    }
}

// Whoever leads to a place leads wherever it leads.
fn lead_through(count: usize, through: usize, cells: &mut [bool])
    requires square { length cells.old ≡ count * count }
    requires within { through < count }
    ensures { (from to : ℕ) → from < count → to < count → at count cells.new from to ≡ (at count cells.old from to || (at count cells.old from through && at count cells.old through to)) }
{
    for from in 0..count {
        if cells[from * count + through] {
            lead_from(count, from, through, cells);
        }
    }
}

// One place leads wherever another leads.
fn lead_from(count: usize, from: usize, through: usize, cells: &mut [bool])
    requires square { length cells.old ≡ count * count }
    requires from_within { from < count }
    requires through_within { through < count }
    ensures { (row to : ℕ) → row < count → to < count → at count cells.new row to ≡ (at count cells.old row to || (row == from && at count cells.old through to)) }
{
    for to in 0..count {
        if cells[through * count + to] {
            cells[from * count + to] = true;
        }
    }
}

// Whether a caller is a user or client of the group at a place.
fn is_member_at(items: &Hashed, place: usize, caller: &Text) -> bool
    ensures { result ≡ member_at items.now.entries place caller.now }
{
    match items.get_index(place) {
        Some((_, group)) => group.is_member(caller),
        None => false,
    }
}

// Whether a caller is a user or client of a group to which the one at a place leads.
fn is_member_beyond(items: &Hashed, cells: &[bool], place: usize, caller: &Text) -> bool
    requires within { place < length items.now.entries }
    requires square { IsSquare (length items.now.entries) cells.now }
    ensures { IsTrue result ↔ IsMemberBeyond items.now.entries cells.now place caller.now }
{
    if cells.is_empty() {
        return false;
    }
    let count = items.len();
    for to in 0..count {
        if cells[place * count + to] && is_member_at(items, to, caller) {
            return true;
        }
    }
    false
}

/// Whether a caller is a user or client of the group at a place, or of one to which it leads. It takes no
/// memory.
pub(crate) fn is_member_from(items: &Hashed, cells: &[bool], place: usize, caller: &Text) -> bool
    requires within { place < length items.now.entries }
    requires tells { Tells items.now.entries cells.now }
    ensures { IsTrue result ↔ IsMemberFrom items.now.entries cells.now place caller.now }
{
    is_member_at(items, place, caller) || is_member_beyond(items, cells, place, caller)
}

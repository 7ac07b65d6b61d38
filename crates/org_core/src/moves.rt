//! The moves that change an organisation's state.

ghost use Rattle.std.specs.Prelude.{◌≡◌, [], ◌∷◌, IfOk, option_copied};
ghost use Rattle.org_core.specs.FileMoves as files;
ghost use Rattle.org_core.specs.Moves as spec;

use crate::comers::Comer;
use crate::file_moves::FileMove;
use crate::group_members::GroupMembers;
use crate::stored::Stored;
use access_lists::Acl;
use doc_tree::{Listed, NoMemory, Text};
use object_store::Key;
use org_shelves::ShelfMove;
use std::alloc::Global;

/// One change of an organisation's state, with all the memory that it needs but for the place of what is
/// put in.
#[derive(Drop)]
pub enum Move {
    /// The organisation is there from now on.
    Open,
    /// An object is put in under its key, in the place of the one that is there.
    Put(Key, Stored),
    /// The object of this key goes.
    TakeOut(Key),
    /// An access list is put in under its object's key, in the place of the one that is there.
    PutList(Key, Acl),
    /// The access list of this key goes.
    TakeList(Key),
    /// A user comes, and joins a group.
    AddUser(Comer),
    /// A user goes, out of every group and every access list too.
    RemoveUser(Text),
    /// A client comes, and joins a group.
    AddClient(Comer),
    /// A client goes, out of every group and every access list too.
    RemoveClient(Text),
    /// A group is put in with its members, in the place of the one of its name.
    PutGroup(Text, GroupMembers),
    /// A group goes, out of every other group and every access list too.
    RemoveGroup(Text),
    /// What an organisation that is there keeps on shelves changes, and with it its files.
    OnShelves(ShelfMove),
    /// The files and sandboxes of an organisation that is there change.
    OnFiles(FileMove),
}

/// Moves, in the order in which they are made.
pub type Moves = Listed<Move>;

impl Move {
    /// Whether it puts something in, which takes room.
    #[tactic(auto, unfolding(crate::specs::Moves::takes_room))]
    pub fn takes_room(&self) -> bool
        ensures { result ≡ spec.takes_room self.now }
    {
        match self {
            Move::Put(_, _)
            | Move::PutList(_, _)
            | Move::AddUser(_)
            | Move::AddClient(_)
            | Move::PutGroup(_, _) => true,
            Move::Open
            | Move::TakeOut(_)
            | Move::TakeList(_)
            | Move::RemoveUser(_)
            | Move::RemoveClient(_)
            | Move::RemoveGroup(_)
            | Move::OnShelves(_)
            | Move::OnFiles(_) => false,
        }
    }

    /// Whether it makes an organisation of none.
    pub(crate) fn opens(&self) -> bool
        ensures { result ≡ spec.opens self.now }
    {
        match self {
            Move::Open => true,
            Move::Put(_, _)
            | Move::TakeOut(_)
            | Move::PutList(_, _)
            | Move::TakeList(_)
            | Move::AddUser(_)
            | Move::RemoveUser(_)
            | Move::AddClient(_)
            | Move::RemoveClient(_)
            | Move::PutGroup(_, _)
            | Move::RemoveGroup(_)
            | Move::OnShelves(_)
            | Move::OnFiles(_) => false,
        }
    }

    /// Whether it puts a file or a sandbox in, which takes room among the files.
    #[tactic(auto, unfolding(crate::specs::FileMoves::takes_file_room))]
    pub(crate) fn takes_file_room(&self) -> bool
        ensures { result ≡ files.takes_file_room self.now }
    {
        match self {
            Move::OnFiles(one) => one.puts_in_files(),
            Move::Open
            | Move::Put(_, _)
            | Move::TakeOut(_)
            | Move::PutList(_, _)
            | Move::TakeList(_)
            | Move::AddUser(_)
            | Move::RemoveUser(_)
            | Move::AddClient(_)
            | Move::RemoveClient(_)
            | Move::PutGroup(_, _)
            | Move::RemoveGroup(_)
            | Move::OnShelves(_) => false,
        }
    }

    /// Whether it puts something on a shelf, which takes room there.
    #[tactic(auto, unfolding(crate::specs::FileMoves::takes_shelf_room))]
    pub(crate) fn takes_shelf_room(&self) -> bool
        ensures { result ≡ files.takes_shelf_room self.now }
    {
        match self {
            Move::OnShelves(one) => one.puts_on_shelves(),
            Move::Open
            | Move::Put(_, _)
            | Move::TakeOut(_)
            | Move::PutList(_, _)
            | Move::TakeList(_)
            | Move::AddUser(_)
            | Move::RemoveUser(_)
            | Move::AddClient(_)
            | Move::RemoveClient(_)
            | Move::PutGroup(_, _)
            | Move::RemoveGroup(_)
            | Move::OnFiles(_) => false,
        }
    }

    /// The group that the one who comes joins, where the move brings somebody.
    pub(crate) fn group_joined(&self) -> Option<&Text>
        ensures { option_copied result ≡ spec.group_joined self.now }
    {
        match self {
            Move::AddUser(comer) | Move::AddClient(comer) => Some(comer.group()),
            Move::Open
            | Move::Put(_, _)
            | Move::TakeOut(_)
            | Move::PutList(_, _)
            | Move::TakeList(_)
            | Move::RemoveUser(_)
            | Move::RemoveClient(_)
            | Move::PutGroup(_, _)
            | Move::RemoveGroup(_)
            | Move::OnShelves(_)
            | Move::OnFiles(_) => None,
        }
    }
}

/// How many of the moves put something in.
pub fn puts_in(moves: &[Move]) -> usize
    ensures { result ≡ spec.puts_in moves.now }
{
    let mut count = 0;
    for one in moves {
        if one.takes_room() {
            count += 1;
        }
    }
    count
}

/// How many of the moves put a file or a sandbox in.
pub(crate) fn files_put_in(moves: &[Move]) -> usize
    ensures { result ≡ files.files_put_in moves.now }
{
    let mut count = 0;
    for one in moves {
        if one.takes_file_room() {
            count += 1;
        }
    }
    count
}

/// How many of the moves put something on a shelf.
pub(crate) fn shelved_by(moves: &[Move]) -> usize
    ensures { result ≡ files.shelved_by moves.now }
{
    let mut count = 0;
    for one in moves {
        if one.takes_shelf_room() {
            count += 1;
        }
    }
    count
}

/// One move.
pub fn one_move(alloc: Global, one: Move) -> Result<Moves, NoMemory>
    ensures { IfOk result (λ moves. moves ≡ one ∷ []) }
{
    let mut moves = Moves::new(alloc);
    moves.push(one)?;
    Ok(moves)
}

//! Two threads, one history.
ghost use Rattle.std.specs.Prelude.{◌≡◌, ◌≤◌, [], IfSome, false, vec_capacity};
ghost use Rattle.turn_tests.specs.Accounts.{AtPlaces, DepositedByTwo};

use crate::accounts::{Account, Amount};
use crate::deposits::deposit;
use std::alloc::Global;
use std::sync::Wait;
use std::thread::{Threads, join};
use turn_book::{TurnBook, Turns};

// Pays in the amount so many times, or until the tickets are at their end.
fn deposit_often<R: Wait>(
    rt: &R,
    book: &TurnBook<Account>,
    mut turns: Turns<Account>,
    amount: u64,
    calls: usize,
    mut replies: Vec<u64>,
) -> (Vec<u64>, Turns<Account>)
    requires own { turns.book ≡ book.now }
    requires fresh { (turns.is_out ≡ false) × (turns.mine ≡ []) }
    requires room { (replies.items ≡ []) × (calls ≤ vec_capacity replies) }
    ensures own { result.1.book ≡ turns.book }
    ensures at_rest { (result.1.is_out ≡ false) × (result.1.parts ≡ turns.parts) × (result.1.opened ≡ turns.opened) }
    ensures placed { AtPlaces result.1.seen amount result.1.mine result.0.items }
{
    while replies.len() < calls {
        match deposit(rt, book, &mut turns, Amount { amount }) {
            Some(reply) => replies.push_reserved(reply),
            None => break,
        }
    }
    (replies, turns)
}

/// Pays in two amounts so many times each, in a thread each, and gives the replies of both and the account. It asks for room
/// for the replies. `None` is want of memory, before the first deposit.
pub fn deposit_by_two<R: Threads + Wait + Sync>(
    rt: &R,
    alloc: Global,
    start: Account,
    calls: usize,
    first: (u64, Vec<u64>),
    second: (u64, Vec<u64>),
) -> Option<(Vec<u64>, Vec<u64>, Account)>
    requires empty { start.journal.items ≡ [] }
    requires first { (first.1.items ≡ []) × (calls ≤ vec_capacity first.1) }
    requires second { (second.1.items ≡ []) × (calls ≤ vec_capacity second.1) }
    ensures deposited { IfSome result (λ end. DepositedByTwo start.sum first.0 second.0 end.0.items end.1.items end.2) }
{
    let (book, mut turns) = match TurnBook::make(alloc, start) {
        Ok(made) => made,
        Err(_) => return None,
    };
    let theirs = book.split(&mut turns);
    let (amount, replies) = first;
    let (other, others) = second;
    let (ours, theirs) = join(
        rt,
        || -> (Vec<u64>, Turns<Account>)
            requires { (turns.book ≡ book) × (turns.is_out ≡ false) × (turns.mine ≡ []) × (replies.items ≡ []) × (calls ≤ vec_capacity replies) }
            ensures { (result.1.book ≡ turns.book) × (result.1.is_out ≡ false) × (result.1.parts ≡ turns.parts) × (result.1.opened ≡ turns.opened) × AtPlaces result.1.seen amount result.1.mine result.0.items }
        { deposit_often(rt, &book, turns, amount, calls, replies) },
        || -> (Vec<u64>, Turns<Account>)
            requires { (theirs.book ≡ book) × (theirs.is_out ≡ false) × (theirs.mine ≡ []) × (others.items ≡ []) × (calls ≤ vec_capacity others) }
            ensures { (result.1.book ≡ theirs.book) × (result.1.is_out ≡ false) × (result.1.parts ≡ theirs.parts) × (result.1.opened ≡ theirs.opened) × AtPlaces result.1.seen other result.1.mine result.0.items }
        { deposit_often(rt, &book, theirs, other, calls, others) },
    );
    let (replies, mut turns) = ours;
    let (others, theirs) = theirs;
    book.join(&mut turns, theirs);
    let account = book.close(turns);
    Some((replies, others, account))
}

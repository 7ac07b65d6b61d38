//! Deposits, each in its turn.
ghost use Rattle.std.specs.Prelude.{◌≡◌, ℕ, None, IfSome, MatchOption, false, true};
ghost use Rattle.turn_book.specs.Callers.{ended, given_back, AddsEntry};
ghost use Rattle.turn_tests.specs.Accounts.{StandsFor, Answers};

use crate::accounts::{Account, Amount, Deposit};
use std::marker::Brand;
use std::sync::Wait;
use turn_book::{Out, Picks, TurnBook, Turns};

/// What a call asks to pay in, for the contracts alone: at the end of the call the amount is used up.
pub trait Asked {
    ghost amount: { ℕ };
}

impl Asked for Brand {
    ghost amount = { 0 };
}

impl Picks<Deposit> for Brand {
    ghost entry = { None };
}

// Gives the account back. The reply is there for whoever picks the entry.
fn finish<M: Picks<Deposit>>(
    book: &TurnBook<Account>,
    turns: &mut Turns<Account>,
    out: Out<Account>,
    reply: &u64,
)
    requires own { turns.old.book ≡ book.now }
    requires out { turns.old.is_out ≡ true }
    requires adds { AddsEntry StandsFor turns.old M.entry out }
    ensures gave { IfSome M.entry (λ entry. turns.new ≡ given_back entry turns.old) }
{
    book.give::<M>(turns, out);
}

fn deposit_as<M: Asked, R: Wait>(
    rt: &R,
    book: &TurnBook<Account>,
    turns: &mut Turns<Account>,
    asked: Amount,
) -> Option<u64>
    requires amount { asked.amount ≡ M.amount }
    requires own { turns.old.book ≡ book.now }
    requires at_rest { turns.old.is_out ≡ false }
    ensures answer { MatchOption result (turns.new ≡ ended turns.old) (λ reply. Answers turns.old M.amount reply turns.new) }
{
    let mut out = match book.take(rt, turns) {
        Some(out) => out,
        None => return None,
    };
    let reply = out.state().pay_in(asked);
    finish::<Brand>(book, turns, out, &reply);
    Some(reply)
}

/// Pays in the amount in its turn, and answers the sum before: the reply at its place in the one history. `None` comes
/// exactly where the tickets are at their end.
pub fn deposit<R: Wait>(
    rt: &R,
    book: &TurnBook<Account>,
    turns: &mut Turns<Account>,
    asked: Amount,
) -> Option<u64>
    requires own { turns.old.book ≡ book.now }
    requires at_rest { turns.old.is_out ≡ false }
    ensures answer { MatchOption result (turns.new ≡ ended turns.old) (λ reply. Answers turns.old asked.amount reply turns.new) }
{
    deposit_as::<Brand, R>(rt, book, turns, asked)
}

//! Two threads pay in, and each reply is found at its place in the journal.

use crate::accounts::{Account, Deposit};
use crate::threads::deposit_by_two;
use std::test::Fail;

const CALLS: usize = 10_000;

// Whether the journal is one that a single thread could have written, with the replies to either amount in their order.
fn is_merged(journal: &[Deposit], opened: u64, ones: &[u64], others: &[u64]) -> bool {
    let mut sum = opened;
    let mut one = 0usize;
    let mut other = 0usize;
    for entry in journal {
        let reply = if entry.amount == 1 {
            one = one.saturating_add(1);
            ones.get(one.wrapping_sub(1))
        } else {
            other = other.saturating_add(1);
            others.get(other.wrapping_sub(1))
        };
        if entry.reply != sum || reply != Some(&sum) {
            return false;
        }
        sum = sum.saturating_add(entry.amount);
    }
    one == ones.len() && other == others.len()
}

#[test]
fn two_threads_pay_in_turn(rt: HostRuntime) -> Result<(), Fail> {
    let start = Account {
        sum: 5,
        journal: Vec::with_capacity(rt.alloc(), 2 * CALLS)?,
    };
    let ones = Vec::with_capacity(rt.alloc(), CALLS)?;
    let others = Vec::with_capacity(rt.alloc(), CALLS)?;
    let end = deposit_by_two(&rt, rt.alloc(), start, CALLS, (1, ones), (1000, others));
    let Some((ones, others, account)) = end else {
        panic!(rt; "there was no memory")
    };
    assert_eq!(rt;
        (ones.len(), others.len(), account.journal.len()),
        (CALLS, CALLS, 2 * CALLS)
    );
    assert_eq!(rt; account.sum, 5 + 1001 * 10_000);
    assert!(rt;
        is_merged(
            account.journal.as_slice(),
            5,
            ones.as_slice(),
            others.as_slice()
        )
    );
    Ok(())
}

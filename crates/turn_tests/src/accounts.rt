//! An account with its journal, which forgets what it has no room for.
ghost use Rattle.std.specs.Prelude.{◌≡◌, ◌+◌, min};
ghost use Rattle.turn_tests.specs.Deposits.{deposit, Journals};

use turn_book::Stands;

/// What a call asks to pay in. It is used up.
#[derive(Drop)]
pub struct Amount {
    pub amount: u64,
}

/// One call: what was paid in, and the sum before.
#[derive(Drop)]
pub struct Deposit {
    pub amount: u64,
    pub reply: u64,
}

/// The sum, and the last deposits. A deposit that finds no room empties the journal, and isn't in it.
#[derive(Drop)]
pub struct Account {
    pub sum: u64,
    pub journal: Vec<Deposit>,
}

impl Stands for Account {
    ghost use Rattle.turn_tests.specs.Accounts.{StandsFor};

    type Entry = Deposit;

    type Opened = u64;

    ghost opened = { λ account. account.sum };

    ghost stands = { StandsFor };
}

impl Account {
    /// Pays in the amount, and answers the sum before.
    pub fn pay_in(&mut self, asked: Amount) -> u64
        ensures reply { result ≡ self.old.sum }
        ensures sum { self.new.sum ≡ min (self.old.sum + asked.amount) 18446744073709551615 }
        ensures journal { Journals self.old.journal.items (deposit asked.amount result) self.new.journal.items }
    {
        let Amount { amount } = asked;
        let reply = self.sum;
        self.sum = reply.saturating_add(amount);
        if self.journal.len() < self.journal.capacity() {
            self.journal.push_reserved(Deposit { amount, reply });
        } else {
            self.journal.clear();
        }
        reply
    }
}

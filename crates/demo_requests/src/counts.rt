//! What the replies to a demo's requests come to, and the lines that tell it.
ghost use Rattle.std.specs.Prelude.{◌≡◌, ◌+◌, ◌<◌, ◌-◌, ◌^◌, ◌∷◌, ◌++◌, List, [], IfOk};
ghost use Rattle.demo_requests.specs.Lines.{Outcome, sums_of, lines_of};

use doc_tree::{NoMemory, Text};
use std::alloc::Global;
use std::marker::Model;

/// How many replies there were, of which status, and how many bytes they have. No number wraps: a reply has
/// fewer than 2^64 bytes, and there are fewer than 2^64 replies.
#[derive(Drop)]
pub struct Counts {
    requests: u64,
    created: u64,
    ok: u64,
    refused: u64,
    bytes: u128,
}

impl Model for Counts {
    ghost use Rattle.std.specs.Prelude.{◌≡◌, ◌+◌, ◌*◌, ◌≤◌, ◌^◌};
    ghost use Rattle.demo_requests.specs.Lines.{Sums};

    ghost Value = { Sums };

    ghost view = { λ c. record { requests = c.requests; created = c.created; ok = c.ok; refused = c.refused; bytes = c.bytes } };

    ghost invariant = { λ c. (c.created + c.ok + c.refused ≡ c.requests) × (c.bytes ≤ c.requests * 2 ^ 64) };
}

impl Counts {
    /// No reply yet.
    pub fn none() -> Counts
        ensures { result ≡ sums_of [] }
    {
        Counts {
            requests: 0,
            created: 0,
            ok: 0,
            refused: 0,
            bytes: 0,
        }
    }

    /// Counts a reply of this status, which has so many bytes as a message.
    pub fn count(&mut self, status: u16, bytes: usize)
        requires { self.old.requests < 2 ^ 64 - 1 }
        ensures sums { (outcomes : List Outcome) → self.old ≡ sums_of outcomes
            → self.new ≡ sums_of (outcomes ++ record { status = status; bytes = bytes } ∷ []) }
        ensures one_more { self.new.requests ≡ self.old.requests + 1 }
    {
        self.requests += 1;
        self.bytes += bytes as u128;
        match status {
            201 => self.created += 1,
            200 => self.ok += 1,
            _ => self.refused += 1,
        }
    }

    /// The five lines that tell the counts, each with its end.
    pub fn lines(&self, alloc: Global) -> Result<Text, NoMemory>
        ensures { IfOk result (λ lines. lines ≡ lines_of self.now) }
    {
        Ok(Text::of(format!(in alloc;
            "requests {}\ncreated {}\nok {}\nrefused {}\nbytes {}\n",
            self.requests, self.created, self.ok, self.refused, self.bytes
        )?))
    }
}

//! Facts about streams of messages that hold without any call: each is a function that does nothing.
ghost use Rattle.std.specs.Prelude.{◌≡◌, ℕ, List, ◌++◌};
ghost use Rattle.std.specs.List.{flat_map};
ghost use Rattle.http_wire.specs.Message.{Message, print_message};
ghost use Rattle.http_wire.specs.Splits.{BeginsAll, Splits};

/// A stream splits into messages and a rest in one way at most.
pub fn one_split()
    ensures { (place : ℕ) (bytes : List ℕ) (ms ns : List Message) (rest other : List ℕ) → Splits place bytes ms rest → Splits place bytes ns other → (ms ≡ ns) × (rest ≡ other) }
{}

/// The bytes of a split stream are those of its messages, in their order, and then the rest.
pub fn whole_stream()
    ensures { (place : ℕ) (bytes : List ℕ) (ms : List Message) (rest : List ℕ) → Splits place bytes ms rest → bytes ≡ flat_map print_message ms ++ rest }
{}

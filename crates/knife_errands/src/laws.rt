//! A law: no name breaks out of its target.
ghost use Rattle.std.specs.Prelude.{ℕ, List};
ghost use Rattle.peer_wire.specs.declared.asks.Whom as peers;
ghost use Rattle.knife_errands.specs.Requests.{request_of};
ghost use Rattle.knife_errands.specs.Targets.{IsClean, target};
ghost use Rattle.knife_errands.specs.declared.errands.Step as steps;

/// Whatever names, queries and paths are, each byte of a target is an ASCII letter, a digit or one of
/// ``-._~!$&'()*+,;=:@/?%``: one that a path or a query may have (RFC 3986, sections 3.3 and 3.4). So what a name holds
/// ends no request line.
pub fn targets_are_clean()
    ensures steps { (step : steps.Step) (whom : peers.Whom) → IsClean (request_of step whom).target }
    ensures places { (whom : peers.Whom) (names : List (List ℕ)) → IsClean (target whom names) }
{}

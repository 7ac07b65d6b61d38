//! Laws: what a text spells.
ghost use Rattle.query_text.specs.Grammar.{Spells};
ghost use Rattle.query_text.specs.Query.{Ors};
ghost use Rattle.std.specs.Prelude.{ℕ, List, ◌≡◌};

/// A text spells at most one query.
pub fn one_query()
    ensures { (text : List ℕ) (p q : Ors) → Spells text p → Spells text q → p ≡ q }
{}

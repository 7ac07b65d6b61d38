//! Laws: what a text spells.
ghost use Rattle.doc_tree.specs.Doc.{Doc, depth};
ghost use Rattle.doc_tree.specs.Valid.{IsDoc};
ghost use Rattle.std.specs.Prelude.{ℕ, List, ◌≡◌, ◌≤◌};
ghost use Rattle.yaml_subset.specs.Spells.{Spells};
ghost use Rattle.yaml_subset.specs.Written.{written};

/// A text spells at most one tree.
pub fn one_tree()
    ensures { (text : List ℕ) (d e : Doc) → Spells text d → Spells text e → d ≡ e }
{}

/// The text of a tree that nests at most 100 deep spells that tree.
pub fn written_spells()
    ensures { (d : Doc) → IsDoc d → depth d ≤ 100 → Spells (written d) d }
{}

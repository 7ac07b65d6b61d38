//! Laws: what a stored object is read as, and what it is named.
ghost use Rattle.std.specs.Prelude.{ℕ, List, Option, IsFalse};
ghost use Rattle.doc_tree.specs.Doc.{Doc};
ghost use Rattle.doc_tree.specs.declared.kind.Kind.{Kind};
ghost use Rattle.object_forms.specs.Kinds.{is_item};
ghost use Rattle.object_forms.specs.Laws.{ReadsAsItself, GivesNamed, GivesId};

/// What a body gave, of any kind but an item, is read as itself under its name. An item may differ: one whose own
/// keys are those of a `Chef::DataBagItem` is read as what it holds in its `raw_data`.
pub fn stored_objects_read_back()
    ensures { (kind : Kind) (path : Option (List ℕ)) (body stored : Doc) → IsFalse (is_item kind) → ReadsAsItself kind path body stored }
{}

/// What a body gave has the path's name, and where there is no path a Name. An item's has the form of an id.
pub fn stored_objects_are_named()
    ensures names { (kind : Kind) (path : Option (List ℕ)) (body stored : Doc) → GivesNamed kind path body stored }
    ensures ids { (path : Option (List ℕ)) (body item : Doc) (id : List ℕ) → GivesId path body item id }
{}

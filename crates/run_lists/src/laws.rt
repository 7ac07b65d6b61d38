//! Laws: what stored items and run lists are read as, and that a run list is visited in one way.
ghost use Rattle.std.specs.Prelude.{ℕ, List};
ghost use Rattle.doc_tree.specs.Doc.{Doc};
ghost use Rattle.run_lists.specs.Laws.{NamedListsReadBack, OneVisit, RunListReadsBack, StoredReadsBack};
ghost use Rattle.run_lists.specs.Stored.{Stored};
ghost use Rattle.run_lists.specs.declared.by_name.NamedRunList.{NamedRunList};
ghost use Rattle.run_lists.specs.declared.roles.RunLists.{RunLists};

/// The stored text of an item names what the text that was sent names, and is itself stored as it is.
pub fn stored_items_read_back()
    ensures { (text : List ℕ) → StoredReadsBack text }
{}

/// What is stored of a run list, and of run lists under their names, is read as themselves.
pub fn run_lists_read_back()
    ensures one { (d : Doc) (items : List Stored) → RunListReadsBack d items }
    ensures named { (d : Doc) (lists : List NamedRunList) → NamedListsReadBack d lists }
{}

/// The visit of a run list gives at most one list of events, so an expansion is determined by the items, the roles and
/// the environment.
pub fn one_visit()
    ensures { (roles : List (List ℕ × RunLists)) (env : List ℕ) (items : List Stored) → OneVisit roles env items }
{}

//! Laws: what an act comes to, what one that updates keeps, and which wants agree.
ghost use Rattle.host_acts.specs.Acts as act;
ghost use Rattle.host_acts.specs.Agreeing as spec;

/// An act is determined by the host and what is to be done: two that come from one host have one verdict, and leave one
/// host.
pub fn acts_are_determined()
    ensures { act.ActsAreDetermined }
{}

/// An act that updates keeps each want that suits its own: where such a want held before, it holds afterwards.
pub fn updates_keep_what_suits()
    ensures { spec.UpdatesKeep }
{}

/// Wants that hold together in some host suit each other.
pub fn agreeing_wants_suit()
    ensures { spec.AgreeingSuit }
{}

/// So do wants that agree by their paths: at one path they hold together in some host, and where one path is a proper
/// prefix of the other, a directory is wanted at the prefix, or both are to be absent.
pub fn wants_that_agree_by_path_suit()
    ensures { spec.AgreeingByPathSuit }
{}

/// Wants agree by a table that asks for no host: at one path both want nothing, or files with content and mode alike,
/// directories with modes alike, or links to the same; and where one path is a proper prefix of the other, a directory
/// is wanted at the prefix, or both are to be absent. Two wants that agree so hold together in some host.
pub fn wants_that_agree_by_table_agree()
    ensures { spec.AgreeingByTable }
{}

//! What a group of routes is lent: whose request it is, who asks, and the organisation's state.

use crate::org_state::OrgState;
use dep_solver::Solved;
use doc_tree::Text;
use object_finder::Finder;
use sandboxes::Files;

/// The organisation's name, the caller, the organisation's state and its files: every part of a rule sees
/// them.
#[derive(Clone, Copy)]
pub struct Context<'c> {
    /// The organisation's name.
    pub org: &'c Text,
    /// The caller's name, if the request says one.
    pub caller: &'c Option<Text>,
    /// The organisation's state.
    pub state: &'c OrgState,
    /// The files of all organisations, of which contracts see those of this one.
    pub files: &'c Files,
}

/// All that an operation is lent beside its context. No group names what it doesn't use, and nothing here
/// changes what an operation comes to.
#[derive(Drop)]
pub struct Lent<'l, F: Finder> {
    /// What finds the objects that a query matches. It is exact for the organisation's state.
    pub finder: &'l F,
    /// A solution that was found beforehand, which saves a search where it is of the very same universe, rules
    /// and roots.
    pub hint: Option<&'l Solved>,
}

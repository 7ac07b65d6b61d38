//! The rows of the tables of fields.

/// The form of a field.
#[derive(Clone, Copy, Drop)]
pub(crate) enum Form<'a> {
    /// A Name.
    Name,
    /// The id of an item: a Name other than `_acl`.
    Id,
    /// Any text.
    Text,
    /// This text.
    Exactly(&'a str),
    Truth,
    Dict,
    /// A run list.
    Items,
    /// A Dict from Names to run lists.
    ItemsByName,
    /// A Dict from Names to constraints on versions.
    ConstraintsByName,
}

/// What a field that isn't there is.
#[derive(Clone, Copy, Drop)]
pub(crate) enum Absent<'a> {
    /// A fault.
    Fault,
    /// Left out.
    Nothing,
    /// This text.
    Words(&'a str),
    False,
    NoItems,
    NoKeys,
}

/// A field of a kind of object.
#[derive(Clone, Copy, Drop)]
pub(crate) struct Row<'a> {
    pub(crate) name: &'static str,
    pub(crate) form: Form<'a>,
    pub(crate) absent: Absent<'a>,
}

//! The kinds of what has a name of its own.

ghost use Rattle.std.specs.Prelude.{◌≡◌};
ghost use Rattle.knife_errands.specs.Kinds as spec;

use crate::errands::Kind;

impl Kind {
    /// What one is called.
    pub(crate) fn word(self) -> &'static str
        ensures { result.now ≡ spec.word_of self }
    {
        match self {
            Kind::Node => "node",
            Kind::Role => "role",
            Kind::Environment => "environment",
            Kind::Client => "client",
            Kind::Group => "group",
            Kind::DataBag => "data_bag",
        }
    }

    /// The segment of a target below which they stand.
    pub(crate) fn collection(self) -> &'static str
        ensures { result.now ≡ spec.collection self }
    {
        match self {
            Kind::Node => "nodes",
            Kind::Role => "roles",
            Kind::Environment => "environments",
            Kind::Client => "clients",
            Kind::Group => "groups",
            Kind::DataBag => "data",
        }
    }

    /// Whether `KIND create N` makes one.
    pub(crate) fn is_created(self) -> bool
        ensures { result ≡ spec.is_created self }
    {
        matches!(self, Kind::Node | Kind::Client | Kind::DataBag)
    }

    /// Whether `KIND delete N` removes one.
    pub(crate) fn is_deleted(self) -> bool
        ensures { result ≡ spec.is_deleted self }
    {
        !matches!(self, Kind::Group)
    }

    /// Whether `KIND from file F` puts one.
    pub(crate) fn is_filed(self) -> bool
        ensures { result ≡ spec.is_filed self }
    {
        matches!(self, Kind::Role | Kind::Environment)
    }

    /// Whether one has a run list that words change.
    pub(crate) fn has_run_list(self) -> bool
        ensures { result ≡ spec.has_run_list self }
    {
        matches!(self, Kind::Node)
    }
}

/// The kind that a word names.
pub(crate) fn kind_in(word: &str) -> Option<Kind>
    ensures { result ≡ spec.kind_in word.now }
{
    match word {
        "node" => Some(Kind::Node),
        "role" => Some(Kind::Role),
        "environment" => Some(Kind::Environment),
        "client" => Some(Kind::Client),
        "group" => Some(Kind::Group),
        _ => None,
    }
}

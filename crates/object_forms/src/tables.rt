//! The fields of each kind of object, in the order in which they are looked at.
ghost use Rattle.std.specs.Prelude.{◌≡◌, [], map, unwrap_or};
ghost use Rattle.object_forms.specs.Kinds.{table};
ghost use Rattle.object_forms.specs.Rows.{row_of};

use crate::rows::{Absent, Form, Row};
use doc_tree::Kind;

/// A node, behind its name.
static NODE: [Row<'static>; 10] = [
    Row {
        name: "chef_type",
        form: Form::Exactly("node"),
        absent: Absent::Words("node"),
    },
    Row {
        name: "json_class",
        form: Form::Exactly("Chef::Node"),
        absent: Absent::Words("Chef::Node"),
    },
    Row {
        name: "chef_environment",
        form: Form::Name,
        absent: Absent::Words("_default"),
    },
    Row {
        name: "run_list",
        form: Form::Items,
        absent: Absent::NoItems,
    },
    Row {
        name: "normal",
        form: Form::Dict,
        absent: Absent::NoKeys,
    },
    Row {
        name: "default",
        form: Form::Dict,
        absent: Absent::NoKeys,
    },
    Row {
        name: "override",
        form: Form::Dict,
        absent: Absent::NoKeys,
    },
    Row {
        name: "automatic",
        form: Form::Dict,
        absent: Absent::NoKeys,
    },
    Row {
        name: "policy_name",
        form: Form::Name,
        absent: Absent::Nothing,
    },
    Row {
        name: "policy_group",
        form: Form::Name,
        absent: Absent::Nothing,
    },
];

/// A role, behind its name.
static ROLE: [Row<'static>; 7] = [
    Row {
        name: "chef_type",
        form: Form::Exactly("role"),
        absent: Absent::Words("role"),
    },
    Row {
        name: "json_class",
        form: Form::Exactly("Chef::Role"),
        absent: Absent::Words("Chef::Role"),
    },
    Row {
        name: "description",
        form: Form::Text,
        absent: Absent::Words(""),
    },
    Row {
        name: "run_list",
        form: Form::Items,
        absent: Absent::NoItems,
    },
    Row {
        name: "env_run_lists",
        form: Form::ItemsByName,
        absent: Absent::NoKeys,
    },
    Row {
        name: "default_attributes",
        form: Form::Dict,
        absent: Absent::NoKeys,
    },
    Row {
        name: "override_attributes",
        form: Form::Dict,
        absent: Absent::NoKeys,
    },
];

/// An environment, behind its name.
static ENVIRONMENT: [Row<'static>; 6] = [
    Row {
        name: "chef_type",
        form: Form::Exactly("environment"),
        absent: Absent::Words("environment"),
    },
    Row {
        name: "json_class",
        form: Form::Exactly("Chef::Environment"),
        absent: Absent::Words("Chef::Environment"),
    },
    Row {
        name: "description",
        form: Form::Text,
        absent: Absent::Words(""),
    },
    Row {
        name: "cookbook_versions",
        form: Form::ConstraintsByName,
        absent: Absent::NoKeys,
    },
    Row {
        name: "default_attributes",
        form: Form::Dict,
        absent: Absent::NoKeys,
    },
    Row {
        name: "override_attributes",
        form: Form::Dict,
        absent: Absent::NoKeys,
    },
];

/// A client, behind its name.
static CLIENT: [Row<'static>; 1] = [Row {
    name: "validator",
    form: Form::Truth,
    absent: Absent::False,
}];

/// The fields of a kind behind its name or id.
pub(crate) fn table_of(kind: Kind) -> &'static [Row<'static>]
    ensures { map row_of result.now ≡ unwrap_or (table kind) [] }
{
    match kind {
        Kind::Node => &NODE,
        Kind::Role => &ROLE,
        Kind::Environment => &ENVIRONMENT,
        Kind::Client => &CLIENT,
        _ => &[],
    }
}

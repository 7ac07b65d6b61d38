//! The table of resource types.
ghost use Rattle.std.specs.Prelude.{◌≡◌, bytes_eq, map};
ghost use Rattle.std.specs.List.{list_any};
ghost use Rattle.resource_core.specs.Types as spec;

/// A type of resource.
#[derive(Clone, Copy, Debug, PartialEq, Eq, Drop)]
pub enum ResourceType {
    File,
    Directory,
    Link,
}

/// What is done to a resource.
#[derive(Clone, Copy, Debug, PartialEq, Eq, Drop)]
pub enum Action {
    Create,
    /// Creates it where nothing is there.
    CreateIfMissing,
    Delete,
    Nothing,
}

/// The form of a property's value.
#[derive(Clone, Copy, Drop)]
pub(crate) enum Form {
    /// A text, with attributes in it.
    Words,
    Mode,
    Truth,
    /// The text `symbolic`.
    Symbolic,
    /// A list of notifications.
    Entries,
}

/// Whether a property has to be there.
#[derive(Clone, Copy, Drop)]
pub(crate) enum Presence {
    Optional,
    Needed,
    /// Needed where `create` is an own or notified action.
    NeededToCreate,
}

/// A property of a type.
#[derive(Clone, Copy, Drop)]
pub(crate) struct Property {
    pub(crate) name: &'static str,
    pub(crate) form: Form,
    pub(crate) presence: Presence,
}

/// A row of the table: the word of a type, the property that says where the resource lies, its actions, of which the
/// first is the default, and its properties in the order in which they are looked at.
#[derive(Clone, Copy, Drop)]
pub(crate) struct Row {
    pub(crate) word: &'static str,
    pub(crate) path: &'static str,
    pub(crate) actions: &'static [Action],
    pub(crate) properties: &'static [Property],
}

/// All types.
static TYPES: [ResourceType; 3] = [
    ResourceType::File,
    ResourceType::Directory,
    ResourceType::Link,
];

/// What each resource has before the properties of its type.
static COMMON: [Property; 3] = [
    Property {
        name: "name",
        form: Form::Words,
        presence: Presence::Needed,
    },
    Property {
        name: "notifies",
        form: Form::Entries,
        presence: Presence::Optional,
    },
    Property {
        name: "subscribes",
        form: Form::Entries,
        presence: Presence::Optional,
    },
];

/// The actions of a file.
static FILE_ACTIONS: [Action; 4] = [
    Action::Create,
    Action::CreateIfMissing,
    Action::Delete,
    Action::Nothing,
];

/// The properties of a file.
static FILE_PROPERTIES: [Property; 4] = [
    Property {
        name: "path",
        form: Form::Words,
        presence: Presence::Optional,
    },
    Property {
        name: "content",
        form: Form::Words,
        presence: Presence::Optional,
    },
    Property {
        name: "mode",
        form: Form::Mode,
        presence: Presence::Optional,
    },
    Property {
        name: "force_unlink",
        form: Form::Truth,
        presence: Presence::Optional,
    },
];

/// The actions of a directory and of a link.
static OTHER_ACTIONS: [Action; 3] = [Action::Create, Action::Delete, Action::Nothing];

/// The properties of a directory.
static DIRECTORY_PROPERTIES: [Property; 3] = [
    Property {
        name: "path",
        form: Form::Words,
        presence: Presence::Optional,
    },
    Property {
        name: "mode",
        form: Form::Mode,
        presence: Presence::Optional,
    },
    Property {
        name: "recursive",
        form: Form::Truth,
        presence: Presence::Optional,
    },
];

/// The properties of a link.
static LINK_PROPERTIES: [Property; 3] = [
    Property {
        name: "target_file",
        form: Form::Words,
        presence: Presence::Optional,
    },
    Property {
        name: "to",
        form: Form::Words,
        presence: Presence::NeededToCreate,
    },
    Property {
        name: "link_type",
        form: Form::Symbolic,
        presence: Presence::Optional,
    },
];

/// The table.
pub(crate) fn row_of(kind: ResourceType) -> Row
    ensures { spec.row_of result ≡ spec.row kind }
{
    match kind {
        ResourceType::File => Row {
            word: "file",
            path: "path",
            actions: &FILE_ACTIONS,
            properties: &FILE_PROPERTIES,
        },
        ResourceType::Directory => Row {
            word: "directory",
            path: "path",
            actions: &OTHER_ACTIONS,
            properties: &DIRECTORY_PROPERTIES,
        },
        ResourceType::Link => Row {
            word: "link",
            path: "target_file",
            actions: &OTHER_ACTIONS,
            properties: &LINK_PROPERTIES,
        },
    }
}

/// What each resource has before the properties of its type.
pub(crate) fn common() -> &'static [Property]
    ensures { map spec.property_of result.now ≡ spec.common }
{
    &COMMON
}

/// The type of this word.
pub(crate) fn type_named(word: &str) -> Option<ResourceType>
    ensures { result ≡ spec.type_named word.now }
{
    for kind in all_types() {
        if kind.word() == word {
            return Some(*kind);
        }
    }
    None
}

fn all_types() -> &'static [ResourceType]
    ensures { result.now ≡ spec.types }
{
    &TYPES
}

impl ResourceType {
    /// The word by which recipes state it.
    pub fn word(self) -> &'static str
        ensures { result.now ≡ (spec.row self).word }
    {
        row_of(self).word
    }

    /// Its actions, in the order of the table, of which the first is the default.
    pub fn actions(self) -> &'static [Action]
        ensures { result.now ≡ (spec.row self).actions }
    {
        row_of(self).actions
    }

    /// The action of this word, or `None` exactly where the type lacks it.
    pub fn action_named(self, word: &str) -> Option<Action>
        ensures { result ≡ spec.action_in self word.now }
    {
        for action in self.actions() {
            if action.word() == word {
                return Some(*action);
            }
        }
        None
    }
}

impl Action {
    /// The word by which recipes state it.
    pub fn word(self) -> &'static str
        ensures { result.now ≡ spec.word_of self }
    {
        match self {
            Action::Create => "create",
            Action::CreateIfMissing => "create_if_missing",
            Action::Delete => "delete",
            Action::Nothing => "nothing",
        }
    }
}

/// Whether a resource of this type may have the key.
pub(crate) fn is_known(kind: ResourceType, key: &str) -> bool
    ensures { result ≡ spec.is_known kind key.now }
{
    key == "type" || key == "action" || names(common(), key) || names(row_of(kind).properties, key)
}

fn names(properties: &[Property], key: &str) -> bool
    ensures { result ≡ list_any (λ p. bytes_eq p.name key.now) (map spec.property_of properties.now) }
{
    for property in properties {
        if property.name == key {
            return true;
        }
    }
    false
}

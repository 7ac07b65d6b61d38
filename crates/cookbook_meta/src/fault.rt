//! Why a body gives no metadata or no manifest.
ghost use Rattle.std.specs.Prelude.{◌≡◌, ◌⊎◌, option_map};
ghost use Rattle.cookbook_meta.specs.Faults as spec;
ghost use Rattle.cookbook_meta.specs.Outcomes.{Gives};
ghost use Rattle.cookbook_meta.specs.declared.fault.Flaw.TheVariants as flaw;
ghost use Rattle.cookbook_meta.specs.declared.fault.MetaFault.TheVariants as fault;

use doc_tree::{NoMemory as NoMemoryError, Text};
use std::alloc::Global;
use thiserror::Error;

/// Why a body gives no metadata or no manifest: what is wrong with the first field, in their order, that hasn't its
/// form, and its name. What is wrong with a part inside a field is wrong with the field.
#[derive(Debug, Drop, Error)]
pub enum MetaFault {
    /// The field has to be there and isn't.
    #[error("field {0} is missing")]
    MissingField(Text),
    /// The field hasn't its JSON kind, or the form or the text that is stated for it.
    #[error("field {0} hasn't its form")]
    WrongKind(Text),
    /// The field is a text that should be a version, or a constraint on versions, and isn't.
    #[error("field {0} is no version")]
    BadVersion(Text),
    /// The field tells another name or version than the path, or than the manifest.
    #[error("field {0} tells another name or version")]
    NameDiffers(Text),
    /// The field is a text that should be a checksum and isn't.
    #[error("field {0} is no checksum")]
    BadChecksum(Text),
    /// The field has a path that stands before, in it or in another.
    #[error("field {0} has a path twice")]
    DoublePath(Text),
    /// Memory ran out.
    #[error("out of memory")]
    NoMemory,
}

/// What is wrong with a field, whichever it is.
#[derive(Clone, Copy, Debug, Drop)]
pub(crate) enum Flaw {
    MissingField,
    WrongKind,
    BadVersion,
    NameDiffers,
    BadChecksum,
    DoublePath,
    NoMemory,
}

/// A part that was read, or its flaw as the fault of the field of this name.
pub(crate) fn in_field<T>(alloc: Global, name: &str, part: Result<T, Flaw>) -> Result<T, MetaFault>
    ensures { Gives result (spec.in_field name.now part) }
{
    match part {
        Ok(read) => Ok(read),
        Err(flaw) => Err(flaw.of_field(alloc, name)),
    }
}

impl From<NoMemoryError> for MetaFault {
    ghost from_gives = { λ _ e. e ≡ fault.NoMemory };

    fn from(_cause: NoMemoryError) -> MetaFault {
        MetaFault::NoMemory
    }
}

impl From<NoMemoryError> for Flaw {
    ghost from_gives = { λ _ e. e ≡ flaw.NoMemory };

    fn from(_cause: NoMemoryError) -> Flaw {
        Flaw::NoMemory
    }
}

impl MetaFault {
    /// The name of the field that is at fault, and `None` at want of memory.
    pub fn field(&self) -> Option<&Text>
        ensures { option_map (λ t. t.now) result ≡ spec.field_of self.now }
    {
        match self {
            MetaFault::MissingField(field)
            | MetaFault::WrongKind(field)
            | MetaFault::BadVersion(field)
            | MetaFault::NameDiffers(field)
            | MetaFault::BadChecksum(field)
            | MetaFault::DoublePath(field) => Some(field),
            MetaFault::NoMemory => None,
        }
    }

    /// What is wrong with the field.
    pub(crate) fn flaw(&self) -> Flaw
        ensures { result ≡ spec.flaw_of self.now }
    {
        match self {
            MetaFault::MissingField(_) => Flaw::MissingField,
            MetaFault::WrongKind(_) => Flaw::WrongKind,
            MetaFault::BadVersion(_) => Flaw::BadVersion,
            MetaFault::NameDiffers(_) => Flaw::NameDiffers,
            MetaFault::BadChecksum(_) => Flaw::BadChecksum,
            MetaFault::DoublePath(_) => Flaw::DoublePath,
            MetaFault::NoMemory => Flaw::NoMemory,
        }
    }
}

impl Flaw {
    /// The fault of the field of this name.
    pub(crate) fn of_field(self, alloc: Global, name: &str) -> MetaFault
        ensures { (result ≡ fault.NoMemory) ⊎ (result ≡ spec.fault_of name.now self) }
    {
        match Text::from_str(alloc, name) {
            Ok(name) => self.of(name),
            Err(_) => MetaFault::NoMemory,
        }
    }

    fn of(self, name: Text) -> MetaFault
        ensures { result ≡ spec.fault_of name self }
    {
        match self {
            Flaw::MissingField => MetaFault::MissingField(name),
            Flaw::WrongKind => MetaFault::WrongKind(name),
            Flaw::BadVersion => MetaFault::BadVersion(name),
            Flaw::NameDiffers => MetaFault::NameDiffers(name),
            Flaw::BadChecksum => MetaFault::BadChecksum(name),
            Flaw::DoublePath => MetaFault::DoublePath(name),
            Flaw::NoMemory => MetaFault::NoMemory,
        }
    }
}

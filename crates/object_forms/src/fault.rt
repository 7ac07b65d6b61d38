//! Why a body gives no object.
ghost use Rattle.std.specs.Prelude.{◌≡◌};
ghost use Rattle.object_forms.specs.declared.fault.FormFault.TheVariants as fault;
ghost use Rattle.object_forms.specs.Outcomes.{Names};

use doc_tree::{NoMemory as NoMemoryError, Text};
use std::alloc::Global;
use thiserror::Error;

/// Why a body gives no object.
#[derive(Debug, Drop, Error)]
pub enum FormFault {
    /// The first field, in the order of the table of its kind, that hasn't its form.
    #[error("bad field {0}")]
    BadField(Text),
    #[error("out of memory")]
    NoMemory,
}

impl From<NoMemoryError> for FormFault {
    ghost from_gives = { λ _ e. e ≡ fault.NoMemory };

    fn from(_cause: NoMemoryError) -> FormFault {
        FormFault::NoMemory
    }
}

/// The fault of the field of this name.
pub(crate) fn bad_field(alloc: Global, name: &str) -> FormFault
    ensures { Names result name.now }
{
    match Text::from_str(alloc, name) {
        Ok(name) => FormFault::BadField(name),
        Err(_) => FormFault::NoMemory,
    }
}

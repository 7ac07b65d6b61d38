//! Why recipes have no plan.
ghost use Rattle.std.specs.Prelude.{◌≡◌, ◌⊎◌};
ghost use Rattle.resource_core.specs.declared.fault.CompileFault.TheVariants as fault;

use doc_tree::{NoMemory as NoMemoryError, Text, Texts};
use std::alloc::{AllocFailed, Global};
use std::fmt;
use thiserror::Error;

/// Why recipes have no plan. A `place` is that of a resource among those of all recipes, the first being 0.
#[derive(Drop, Error)]
pub enum CompileFault {
    /// Its `type` is missing, or is no type's word.
    #[error("resource {0}: unknown type")]
    UnknownType(usize),
    /// Its `action` isn't a text or a list of texts, or its type lacks an action of it.
    #[error("resource {0}: unknown action")]
    UnknownAction(usize),
    /// It has a key that its type doesn't know.
    #[error("resource {0}: unknown property")]
    UnknownProperty(usize),
    /// The property of this name hasn't its form, or is missing and has to be there.
    #[error("resource {0}: bad value of {1}")]
    BadValue(usize, Text),
    /// A text names this path, at which the attributes have no text, whole number or truth value.
    #[error("resource {0}: missing attribute")]
    MissingAttribute(usize, Texts),
    /// Its path isn't normal.
    #[error("resource {0}: path not normal")]
    PathNotNormal(usize),
    /// A notification names this `type[name]`, which is no resource's, or asks for an action that the type lacks.
    #[error("resource {0}: no such resource {1}")]
    NoSuchResource(usize, Text),
    /// The `type[name]` of each resource from which immediate notifications lead back to it, in plan order.
    #[error("immediate notifications lead in a circle")]
    ImmediateCycle(Texts),
    /// Memory ran out.
    #[error("out of memory")]
    NoMemory,
}

impl fmt::Debug for CompileFault {
    fn fmt<W: fmt::Write>(&self, f: &mut fmt::Formatter<W>) -> fmt::Result {
        fmt::Display::fmt(self, f)
    }
}

impl From<NoMemoryError> for CompileFault {
    ghost from_gives = { λ _ e. e ≡ fault.NoMemory };

    fn from(_cause: NoMemoryError) -> CompileFault {
        CompileFault::NoMemory
    }
}

impl<T: Drop> From<AllocFailed<T>> for CompileFault {
    ghost from_gives = { λ _ e. e ≡ fault.NoMemory };

    fn from(_cause: AllocFailed<T>) -> CompileFault {
        CompileFault::NoMemory
    }
}

/// The fault of a property's value.
pub(crate) fn bad_value(alloc: Global, place: usize, property: &str) -> CompileFault
    ensures { (result ≡ fault.NoMemory) ⊎ (result ≡ fault.BadValue place property.now) }
{
    match Text::from_str(alloc, property) {
        Ok(property) => CompileFault::BadValue(place, property),
        Err(_) => CompileFault::NoMemory,
    }
}

/// The fault of a notification.
pub(crate) fn no_such_resource(alloc: Global, place: usize, title: &Text) -> CompileFault
    ensures { (result ≡ fault.NoMemory) ⊎ (result ≡ fault.NoSuchResource place title.now) }
{
    match title.copy(alloc) {
        Ok(title) => CompileFault::NoSuchResource(place, title),
        Err(_) => CompileFault::NoMemory,
    }
}

ghost use Rattle.std.specs.Prelude.{◌≡◌};
ghost use Rattle.run_lists.specs.declared.item_fault.ItemFault.TheVariants as fault;

use doc_tree::NoMemory as NoMemoryError;
use thiserror::Error;

/// Why a text gives no item.
#[derive(Clone, Copy, Debug, PartialEq, Eq, Drop, Error)]
pub enum ItemFault {
    /// The text has not the form of an item, whatever follows a `@`.
    #[error("not an item")]
    NotAnItem,
    /// The text would be an item but for what follows its `@`.
    #[error("not a version behind @")]
    BadVersion,
    /// Memory ran out.
    #[error("out of memory")]
    NoMemory,
}

impl From<NoMemoryError> for ItemFault {
    ghost from_gives = { λ _ e. e ≡ fault.NoMemory };

    fn from(_cause: NoMemoryError) -> ItemFault {
        ItemFault::NoMemory
    }
}

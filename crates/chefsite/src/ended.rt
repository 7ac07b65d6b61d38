//! How a command ended.

ghost use Rattle.std.specs.Prelude.{◌≡◌};

use crate::named::Named;
use crate::statuses::Status;

/// How a command ended, with what its note names.
#[derive(Drop)]
pub(crate) struct Ended {
    pub status: Status,
    pub named: Named,
}

impl Ended {
    /// An end whose note names nothing.
    pub(crate) fn at(status: Status) -> Ended
        ensures { result ≡ record { status = status; named = Named.Nothing } }
    {
        Ended {
            status,
            named: Named::Nothing,
        }
    }
}

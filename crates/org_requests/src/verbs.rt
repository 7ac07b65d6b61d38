//! The methods that routes have.
ghost use Rattle.std.specs.Prelude.{◌≡◌};
ghost use Rattle.org_requests.specs.Verbs as spec;

/// The method of a request (RFC 9110, section 9). Any method that no route has is `Other`.
#[derive(Clone, Copy, Debug, PartialEq, Eq)]
pub enum Verb {
    /// GET reads.
    Get,
    /// POST creates in a collection.
    Post,
    /// PUT replaces.
    Put,
    /// DELETE removes.
    Delete,
    /// Any other method.
    Other,
}

impl Verb {
    /// Whether it reads.
    pub fn is_get(self) -> bool
        ensures { result ≡ spec.is_get self }
    {
        matches!(self, Verb::Get)
    }

    /// Whether it creates in a collection.
    pub fn is_post(self) -> bool
        ensures { result ≡ spec.is_post self }
    {
        matches!(self, Verb::Post)
    }
}

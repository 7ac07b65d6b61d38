//! Why an act fails.
ghost use Rattle.std.specs.Prelude.{◌≡◌};
ghost use Rattle.host_acts.specs.Causes as spec;

/// Why an act fails, in the order in which causes are looked for: along the proper prefixes of the path, and then at the
/// path itself.
#[derive(Clone, Copy, Debug, PartialEq, Eq, Drop)]
pub enum Cause {
    /// A proper prefix of the path is missing.
    ParentMissing,
    /// A proper prefix of the path isn't a directory, or something else stands where a directory is meant.
    NotADirectory,
    /// A proper prefix of the path is a link.
    LinkInPath,
    /// Something else stands where a file is meant.
    NotAFile,
    /// Something else stands where a link is meant.
    NotALink,
    /// The directory isn't empty, and what is in it isn't to be removed with it.
    NotEmpty,
}

impl Cause {
    /// The word by which reports tell it.
    pub fn word(self) -> &'static str
        ensures { result.now ≡ spec.word_of self }
    {
        match self {
            Cause::ParentMissing => "ParentMissing",
            Cause::NotADirectory => "NotADirectory",
            Cause::LinkInPath => "LinkInPath",
            Cause::NotAFile => "NotAFile",
            Cause::NotALink => "NotALink",
            Cause::NotEmpty => "NotEmpty",
        }
    }
}

//! Laws: what the texts of versions and constraints read as.
ghost use Rattle.version_rules.specs.Laws.{ConstraintsReadBack, VersionsFit, VersionsReadBack};

/// Each part of a version that a text spells fits 64 bits.
pub fn versions_fit()
    ensures { VersionsFit }
{}

/// The text of a version reads as that version.
pub fn versions_read_back()
    ensures { VersionsReadBack }
{}

/// The text of a constraint reads as that constraint.
pub fn constraints_read_back()
    ensures { ConstraintsReadBack }
{}

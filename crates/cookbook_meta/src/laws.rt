//! Laws: what a stored manifest or artifact is read as.
ghost use Rattle.cookbook_meta.specs.Laws.{ArtifactVersionsFit, ArtifactsReadBack, ManifestsReadBack};

use version_rules::versions_read_back;

/// What a body gave under a name and a version is read as itself, under them, from its stored object.
pub fn manifests_read_back()
    ensures { ManifestsReadBack }
{
    versions_read_back();
}

/// What a body gave as an artifact under a name and an identifier is read as itself, under them, from its stored object.
pub fn artifacts_read_back()
    ensures { ArtifactsReadBack }
{
    versions_read_back();
}

/// Each part of the version of what a body gave as an artifact fits 64 bits.
pub fn artifact_versions_fit()
    ensures { ArtifactVersionsFit }
{}

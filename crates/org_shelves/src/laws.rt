//! Laws: what holds of every stored manifest and artifact, and what the moves on the shelves keep.
ghost use Rattle.std.specs.Prelude.{◌<◌, ◌^◌};
ghost use Rattle.version_rules.specs.Laws.{FitsVersion};
ghost use Rattle.org_shelves.specs.Laws.{ArtifactsAreStored, FrozenAreStored, ManifestsAreKept, ManifestsAreStored, NamedFilesStay, SoundMovesKeep, StoredManifestsSay};

use cookbook_meta::{artifacts_read_back, manifests_read_back};
use version_rules::Version;

/// A manifest that `read_manifest` gives is kept: it is read again, under its own name and version, from its stored
/// object. This is what `Edition::of` requires.
pub fn manifests_are_kept()
    ensures { ManifestsAreKept }
{
    manifests_read_back();
}

/// What is stored of a manifest that `read_manifest` gives is of that name and version.
pub fn manifests_are_stored()
    ensures { ManifestsAreStored }
{
    manifests_read_back();
}

/// What is stored of an artifact that `read_artifact` gives is of that name and identifier.
pub fn artifacts_are_stored()
    ensures { ArtifactsAreStored }
{
    artifacts_read_back();
}

/// What is stored of a manifest says of needs, freezing and checksums what the manifest does.
pub fn stored_manifests_say()
    ensures { StoredManifestsSay }
{}

/// A stored manifest that is frozen is one of the same name and version, and says that it is frozen.
pub fn frozen_are_stored()
    ensures { FrozenAreStored }
{}

/// Each part of a version fits 64 bits, as the laws above ask.
pub fn version_fits(version: &Version)
    ensures { FitsVersion version.now }
{
    part_fits(version.major);
    part_fits(version.minor);
    part_fits(version.patch);
}

fn part_fits(_part: u64)
    ensures { _part < 2 ^ 64 }
{}

/// A move that puts in what is stored as its kind is, under its own name, keeps the conditions of what is on the shelves.
pub fn sound_moves_keep()
    ensures { SoundMovesKeep }
{}

/// A move that puts in what names committed files alone leaves every named file there and committed.
pub fn named_files_stay()
    ensures { NamedFilesStay }
{}

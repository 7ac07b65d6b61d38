//! Metadata and manifests of cookbook versions, and the identifier of a manifest.
#![tactic(auto)]

mod artifacts;
mod entries;
mod fault;
mod fields;
mod gathered;
mod identifiers;
mod laws;
mod manifests;
mod metadata;
mod parts;
mod put;
mod segments;
mod stored;

pub use artifacts::read_artifact;
pub use entries::{Entries, Entry};
pub use fault::MetaFault;
pub use identifiers::identifier;
pub use laws::{artifact_versions_fit, artifacts_read_back, manifests_read_back};
pub use manifests::{Manifest, read_manifest};
pub use metadata::{Metadata, read_metadata, read_needs};
pub use parts::is_identifier;

//! What one row says.

use access_lists::Acl;
use compact_json::CompactJson;
use doc_tree::Text;
use membership::Group;
use object_store::Key;
use org_shelves::{Assignments, Edition, Revision};
use sandboxes::{Checksum, Hashed, Sums};
use version_rules::Version;

/// What one row of an organisation is of, and what its body says, read into what the state keeps of it.
#[derive(Drop)]
pub enum Said {
    /// How many sandboxes the organisation has made.
    Count(u64),
    /// A node, role, environment, bag, client or item, under its key.
    Object(Key, CompactJson),
    /// A user of this name.
    User(Text),
    /// A group of this name with its members.
    Group(Text, Group),
    /// A container of this name: nothing is kept of it.
    Container(Text),
    /// A version of the cookbook of this name.
    Version(Text, Version, Edition),
    /// An artifact of the cookbook of this name, under its identifier.
    Artifact(Text, Text, Edition),
    /// A revision of the policy of this name.
    Revision(Text, Text, Revision),
    /// A policy group of this name with what it assigns.
    PolicyGroup(Text, Assignments),
    /// The access list of an object.
    List(Key, Acl),
    /// An uncommitted sandbox of this id, with the checksums that it lists.
    Sandbox(Checksum, Sums),
    /// A file, and whether it is committed.
    File(Hashed, bool),
}

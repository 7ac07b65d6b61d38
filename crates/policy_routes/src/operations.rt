//! What can be asked of artifacts, policies and policy groups: one operation for each path and method of the table of
//! routes, with all that the path and the body say.

use doc_tree::Text;
use org_shelves::Edition;
use policy_locks::Lock;

/// What can be asked of artifacts, policies and policy groups.
#[derive(Drop)]
pub enum PolicyOperation {
    /// To list the artifacts.
    ListArtifacts,
    /// To show the artifact of this cookbook under this identifier.
    ShowArtifact(Text, Text),
    /// To put this manifest as an artifact of this cookbook under this identifier.
    PutArtifact(Text, Text, Edition),
    /// To remove the artifact of this cookbook under this identifier.
    RemoveArtifact(Text, Text),
    /// To list the policies with their revisions.
    ListPolicies,
    /// To show the revisions of this policy.
    ShowPolicy(Text),
    /// To remove this policy, with its revisions and assignments.
    RemovePolicy(Text),
    /// To make this lock a revision of this policy.
    AddRevision(Text, Lock),
    /// To show the lock of this policy and revision.
    ShowRevision(Text, Text),
    /// To list the policy groups with what they assign.
    ListGroups,
    /// To show what this policy group assigns.
    ShowGroup(Text),
    /// To remove this policy group.
    RemoveGroup(Text),
    /// To show the lock that this group assigns of this policy.
    ShowAssignment(Text, Text),
    /// To assign this lock in this group to this policy.
    Assign(Text, Text, Lock),
    /// To take the assignment of this policy out of this group.
    Unassign(Text, Text),
}

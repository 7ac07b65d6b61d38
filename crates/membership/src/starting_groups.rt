//! The groups with which an organisation starts.
ghost use Rattle.std.specs.Prelude.{◌≡◌};
ghost use Rattle.membership.specs.StartingGroups as spec;

/// Whether a group is one of those with which an organisation starts.
pub fn is_starting_group(name: &str) -> bool
    ensures { result ≡ spec.is_starting_group name.now }
{
    matches!(name, "admins" | "billing-admins" | "clients" | "users")
}

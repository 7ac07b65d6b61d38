//! The families of levels.
ghost use Rattle.attr_merge.specs.Families.{family_of, combines, same_family};
ghost use Rattle.std.specs.Prelude.{◌≡◌};

/// The levels among which arrays are combined, or of which the highest array counts alone.
#[derive(Clone, Copy, Drop)]
pub(crate) enum Family {
    Default,
    Normal,
    Override,
    Automatic,
}

/// The family of a level.
pub(crate) fn family_of(level: u8) -> Family
    ensures { result ≡ family_of level }
{
    if level <= 6 {
        Family::Default
    } else if level <= 8 {
        Family::Normal
    } else if level <= 14 {
        Family::Override
    } else {
        Family::Automatic
    }
}

/// Whether the arrays of a family are combined.
pub(crate) fn combines(family: Family) -> bool
    ensures { result ≡ combines family }
{
    match family {
        Family::Default | Family::Override => true,
        Family::Normal | Family::Automatic => false,
    }
}

/// Whether two families are one.
pub(crate) fn same_family(family: Family, other: Family) -> bool
    ensures { result ≡ same_family family other }
{
    match (family, other) {
        (Family::Default, Family::Default) => true,
        (Family::Normal, Family::Normal) => true,
        (Family::Override, Family::Override) => true,
        (Family::Automatic, Family::Automatic) => true,
        _ => false,
    }
}

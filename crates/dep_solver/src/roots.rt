//! Roots: the cookbooks that are asked for, and the versions to which some are pinned.
ghost use Rattle.std.specs.List.{IsDistinct};
ghost use Rattle.std.proofs.Props.{props};
ghost use Rattle.dep_solver.specs.Names.{same_name};

use doc_tree::{Listed, Name, Names, NoMemory};
use std::alloc::Global;
use version_rules::Version;

/// A cookbook's name and a version: as a pin of the roots, and as what was chosen.
#[derive(Debug, PartialEq, Eq, PartialOrd, Ord, Drop)]
pub struct Pin {
    pub name: Name,
    pub version: Version,
}

/// Names and versions, in order: contracts see the list of them.
pub type Pins = Listed<Pin>;

/// What is asked for: the names of cookbooks, no two of them the same, in the order in which they were first named, and
/// the versions to which cookbooks are pinned. A pin on a name that isn't chosen asks nothing.
#[derive(Drop)]
pub struct Roots {
    pub names: Names,
    pub pins: Pins,
    pub ghost distinct: { IsDistinct same_name names } by { Prim.hlevel props },
}

impl Pin {
    ghost use Rattle.std.specs.Prelude.{◌≡◌, IfOk};

    /// An equal pin of its own.
    pub fn copy(&self, alloc: Global) -> Result<Pin, NoMemory>
        ensures { IfOk result (λ pin. pin ≡ self.now) }
    {
        Ok(Pin {
            name: self.name.copy(alloc)?,
            version: self.version,
        })
    }
}

impl Roots {
    ghost use Rattle.std.specs.Prelude.{◌≡◌, ◌↔◌, IfOk, IfSome, IsSome};

    /// The roots of these names and pins, or `None` exactly where two of the names are the same.
    pub fn of(names: Names, pins: Pins) -> Option<Roots>
        ensures distinct { IsSome result ↔ IsDistinct same_name names }
        ensures names { IfSome result (λ roots. roots.names ≡ names) }
        ensures pins { IfSome result (λ roots. roots.pins ≡ pins) }
    {
        if are_distinct(names.as_slice()) {
            Some(Roots { names, pins })
        } else {
            None
        }
    }

    /// Equal roots of their own.
    pub fn copy(&self, alloc: Global) -> Result<Roots, NoMemory>
        ensures { IfOk result (λ roots. roots ≡ self.now) }
    {
        Ok(Roots {
            names: copy_names(alloc, &self.names)?,
            pins: copy_pins(alloc, &self.pins)?,
        })
    }
}

ghost use Rattle.std.specs.Prelude.{◌≡◌, ◌↔◌, IfOk, IsTrue};
ghost use Rattle.std.specs.Set.{is_member};

fn are_distinct(names: &[Name]) -> bool
    ensures { IsTrue result ↔ IsDistinct same_name names.now }
{
    for (index, name) in names.iter().enumerate() {
        if has_name(&names[..index], name) {
            return false;
        }
    }
    true
}

fn has_name(names: &[Name], name: &Name) -> bool
    ensures { result ≡ is_member same_name names.now name.now }
{
    names.iter().any(|other| *other == *name)
}

fn copy_names(alloc: Global, names: &Names) -> Result<Names, NoMemory>
    ensures { IfOk result (λ copies. copies ≡ names.now) }
{
    let mut copies = Vec::with_capacity(alloc, names.len())?;
    for name in names.as_slice() {
        copies.push(name.copy(alloc)?)?;
    }
    Ok(Names::of(copies))
}

fn copy_pins(alloc: Global, pins: &Pins) -> Result<Pins, NoMemory>
    ensures { IfOk result (λ copies. copies ≡ pins.now) }
{
    let mut copies = Vec::with_capacity(alloc, pins.len())?;
    for pin in pins.as_slice() {
        copies.push(pin.copy(alloc)?)?;
    }
    Ok(Pins::of(copies))
}

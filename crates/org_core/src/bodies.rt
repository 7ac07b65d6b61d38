//! The object that a body says, or why there is none.

ghost use Rattle.std.specs.Prelude.{◌≡◌, IsTrue, Ok, Some, option_copied};
ghost use Rattle.doc_tree.specs.Name.{is_name};
ghost use Rattle.doc_tree.specs.Tree.{doc_of};
ghost use Rattle.object_forms.specs.Kinds.{IsFormed};
ghost use Rattle.org_core.specs.Bodies as spec;
ghost use Rattle.org_requests.specs.Refusals.{Tells};

use crate::stored::Stored;
use doc_tree::{Kind, Name, Text, Tree};
use object_forms::{FormFault, read_object};
use org_requests::{Body, Refusal, Stop, document_in};
use std::alloc::Global;

/// The object of this kind that a body says, as it is stored; where it is replaced, of this name.
pub fn object_in_body(
    alloc: Global,
    kind: Kind,
    name: Option<&Name>,
    body: &Body,
) -> Result<Stored, Stop>
    requires { IsFormed kind }
    ensures { Tells result (spec.object_in_body kind (option_copied name.entry) body.now) }
{
    match document_in(body) {
        Ok(tree) => object_said(alloc, kind, name, tree),
        Err(refusal) => Err(Stop::Refused(refusal)),
    }
}

fn object_said(alloc: Global, kind: Kind, name: Option<&Name>, tree: &Tree) -> Result<Stored, Stop>
    requires { IsFormed kind }
    ensures { Tells result (spec.object_said kind (option_copied name.entry) (Ok (doc_of tree.now))) }
{
    match read_object(alloc, kind, tree, name) {
        Ok(object) => Ok(Stored::of(alloc, object)?),
        Err(FormFault::BadField(field)) => Err(Stop::Refused(Refusal::BadField(field))),
        Err(FormFault::NoMemory) => Err(Stop::NoMemory),
    }
}

/// The object of this name that a body says.
pub fn object_named(alloc: Global, kind: Kind, name: &Text, body: &Body) -> Result<Stored, Stop>
    requires kind { IsFormed kind }
    requires name { IsTrue (is_name name.now) }
    ensures { Tells result (spec.object_in_body kind (Some name.now) body.now) }
{
    match Name::of(name.copy(alloc)?) {
        Ok(name) => object_in_body(alloc, kind, Some(&name), body),
        Err(_) => unreachable!(),
    }
}

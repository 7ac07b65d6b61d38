//! What a group of routes is: its routes, its operations, and the rules by which these are decided.

ghost use Rattle.std.specs.Prelude.{◌≡◌, IfOk};
ghost use Rattle.org_core.specs.Contexts.{IsExactIn, seen};
ghost use Rattle.org_core.specs.Outcomes.{IsAsDecided, Looked, with_search};
ghost use Rattle.org_requests.specs.Refusals.{Tells};
ghost use Rattle.org_core.specs.Rules.{Rules};

use crate::contexts::{Context, Lent};
use crate::moves::Moves;
use crate::needs::Needs;
use doc_tree::{NoMemory, Steps};
use object_finder::Finder;
use org_requests::{Refusal, Reply, Request, Stop};
use std::alloc::Global;
use std::sync::ledger::Ledger;

/// A reply, and the moves that go with it.
#[derive(Drop)]
pub struct Prepared {
    /// The reply to the request.
    pub reply: Reply,
    /// What the request changes: nothing unless the reply is 200 or 201.
    pub moves: Moves,
}

/// A group of routes, by its rules. Each call gives the part of the rules that has its name, or wants
/// memory.
pub trait Group {
    /// The routes of the group.
    type Route: Drop;
    /// What can be asked of them: one operation for each path and method of the table of routes.
    type Operation: Drop;

    ghost rules: { Self → Rules Self.Route Self.Operation };

    /// What the method, the parameters and the body ask for. Behind it nothing looks at these again.
    fn operation<F: Finder>(
        &self,
        alloc: Global,
        context: Context<'_>,
        lent: &Lent<'_, F>,
        route: &Self::Route,
        request: &Request,
    ) -> Result<Self::Operation, Stop>
        ensures { Tells result ((rules self.now).operation (seen context.entry) route.now request.now) };

    /// Whether the object that the path names is missing.
    fn lacks<F: Finder>(
        &self,
        alloc: Global,
        context: Context<'_>,
        lent: &Lent<'_, F>,
        operation: &Self::Operation,
    ) -> Result<bool, NoMemory>
        ensures { IfOk result (λ b. b ≡ (rules self.now).lacks (seen context.entry) operation.now) };

    /// The permissions that the caller needs.
    fn needs<F: Finder>(
        &self,
        alloc: Global,
        context: Context<'_>,
        lent: &Lent<'_, F>,
        operation: &Self::Operation,
    ) -> Result<Needs, NoMemory>
        ensures { IfOk result (λ needs. needs ≡ (rules self.now).needs (seen context.entry) operation.now) };

    /// The group's own refusal.
    fn own_refusal<F: Finder>(
        &self,
        alloc: Global,
        context: Context<'_>,
        lent: &Lent<'_, F>,
        operation: &Self::Operation,
    ) -> Result<Option<Refusal>, NoMemory>
        ensures { IfOk result (λ o. o ≡ (rules self.now).own_refusal (seen context.entry) operation.now) };

    /// What an operation does that nothing refuses. Each body of an object that it looks at is one step, and so is
    /// each that the finder looks at for it.
    fn does<F: Finder, L: Ledger>(
        &self,
        alloc: Global,
        context: Context<'_>,
        lent: &Lent<'_, F>,
        operation: Self::Operation,
        steps: &mut Steps<L>,
    ) -> Result<Prepared, Stop>
        requires exact { IsExactIn (F.held lent.now.finder.now) (seen context) }
        ensures done { IsAsDecided result ((rules self.now).does (seen context.entry) operation).answer }
        ensures looked { Looked result (with_search (F.looks lent.now.finder.now) ((rules self.now).searches (seen context.entry) operation) ((rules self.now).does (seen context.entry) operation).looks) steps.old steps.new };
}

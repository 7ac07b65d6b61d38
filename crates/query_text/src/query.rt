//! Queries: terms that NOT, AND and OR join.
ghost use Rattle.query_text.specs.Items.{item_with};
ghost use Rattle.query_text.specs.Query.{ands_of, ors_of};
ghost use Rattle.std.specs.Prelude.{◌≡◌};

use crate::term::Term;
use std::marker::Model;

/// A query: what OR joins, in the order of the text. Contracts see it as the tree of the grammar.
#[cycle(query)]
#[derive(Drop)]
pub struct Query {
    pub(crate) any_of: Vec<AllOf>,
}

/// What AND joins, in the order of the text.
#[cycle(query)]
#[derive(Drop)]
pub struct AllOf {
    pub(crate) items: Vec<Item>,
}

/// A term or a group, under as many NOTs as stood before it.
#[cycle(query)]
#[derive(Drop)]
pub struct Item {
    pub(crate) nots: u8,
    pub(crate) what: What,
}

/// What NOTs may stand before.
#[cycle(query)]
#[derive(Drop)]
pub enum What {
    /// A term.
    Term(Term),
    /// A query in parentheses.
    Group(Query),
}

impl Model for Query {
    ghost use Rattle.query_text.specs.Query.{Ors, ors_size};
    ghost use Rattle.query_text.specs.QueryCode.{ors_code};

    ghost Value = { Ors };

    ghost coded = { ors_code };

    ghost use Rattle.query_text.specs.Query.{ors_of};

    ghost view = { λ q. ors_of q.any_of.items };

    ghost size = { ors_size };

    ghost use Rattle.std.proofs.Common.{arith};
    ghost use Rattle.query_text.specs.Falls.{most_le-ors_size};

    ghost size_decreases = { λ a h. Prim.omega (arith, most_le-ors_size a.any_of.items) };
}

impl Model for AllOf {
    ghost use Rattle.query_text.specs.Query.{Ands, ands_size};
    ghost use Rattle.query_text.specs.QueryCode.{ands_code};

    ghost Value = { Ands };

    ghost coded = { ands_code };

    ghost use Rattle.query_text.specs.Query.{ands_of};

    ghost view = { λ a. ands_of a.items.items };

    ghost size = { ands_size };

    ghost use Rattle.std.proofs.Common.{arith};
    ghost use Rattle.query_text.specs.Falls.{most_le-ands_size};

    ghost size_decreases = { λ a h. Prim.omega (arith, most_le-ands_size a.items.items) };
}

impl Model for Item {
    ghost use Rattle.query_text.specs.Query as tree;
    ghost use Rattle.query_text.specs.QueryCode.{item_code};

    ghost Value = { tree.Item };

    ghost coded = { item_code };

    ghost use Rattle.query_text.specs.Items.{item_with};

    ghost view = { λ x. item_with x.nots x.what };

    ghost size = { tree.item_size };

    ghost use Rattle.std.proofs.Common.{arith};
    ghost use Rattle.query_text.specs.Falls.{deep_le-item_size};

    ghost size_decreases = { λ a h. Prim.omega (arith, deep_le-item_size a.nots a.what) };
}

impl Query {
    /// What OR joins, in order, as a slice that borrows it.
    pub fn any_of(&self) -> &[AllOf]
        ensures { ors_of result.now ≡ self.now }
    {
        self.any_of.as_slice()
    }
}

impl AllOf {
    /// What AND joins, in order, as a slice that borrows it.
    pub fn items(&self) -> &[Item]
        ensures { ands_of result.now ≡ self.now }
    {
        self.items.as_slice()
    }
}

impl Item {
    /// How many NOTs stand before the term or group, and that.
    pub fn parts(&self) -> (u8, &What)
        ensures { item_with result.0 result.1.now ≡ self.now }
    {
        (self.nots, &self.what)
    }
}

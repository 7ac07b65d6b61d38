//! The group of the routes of searches.

use crate::operations::SearchOperation;
use crate::{asking, finding, listing};
use doc_tree::{NoMemory, Steps};
use object_finder::Finder;
use org_core::{Context, Group, Lent, Needs, Prepared};
use org_requests::routes::SearchRoute;
use org_requests::{Refusal, Request, Stop};
use std::alloc::Global;
use std::sync::ledger::Ledger;

/// The group of the routes of searches. Whoever the organisation knows may search: what isn't for the caller isn't
/// found.
#[derive(Clone, Copy, Debug)]
pub struct Searches;

impl Group for Searches {
    ghost use Rattle.search_routes.specs.SearchRules.{search_rules};

    type Route = SearchRoute;

    type Operation = SearchOperation;

    ghost rules = { λ _. search_rules };

    fn operation<F: Finder>(
        &self,
        alloc: Global,
        _context: Context<'_>,
        _lent: &Lent<'_, F>,
        route: &SearchRoute,
        request: &Request,
    ) -> Result<SearchOperation, Stop> {
        let (verb, body) = (request.verb, &request.body);
        match route {
            SearchRoute::Indexes => asking::indexes_asked(verb),
            SearchRoute::Index(word) => {
                asking::index_asked(alloc, word, verb, request.parameters.as_slice(), body)
            }
        }
    }

    fn lacks<F: Finder>(
        &self,
        alloc: Global,
        context: Context<'_>,
        _lent: &Lent<'_, F>,
        operation: &SearchOperation,
    ) -> Result<bool, NoMemory> {
        match operation {
            SearchOperation::ListIndexes => Ok(false),
            SearchOperation::Find(search) => finding::lacks_index(alloc, context, &search.index),
        }
    }

    fn needs<F: Finder>(
        &self,
        alloc: Global,
        _context: Context<'_>,
        _lent: &Lent<'_, F>,
        _operation: &SearchOperation,
    ) -> Result<Needs, NoMemory> {
        Ok(Needs::new(alloc))
    }

    fn own_refusal<F: Finder>(
        &self,
        _alloc: Global,
        _context: Context<'_>,
        _lent: &Lent<'_, F>,
        _operation: &SearchOperation,
    ) -> Result<Option<Refusal>, NoMemory> {
        Ok(None)
    }

    fn does<F: Finder, L: Ledger>(
        &self,
        alloc: Global,
        context: Context<'_>,
        lent: &Lent<'_, F>,
        operation: SearchOperation,
        steps: &mut Steps<L>,
    ) -> Result<Prepared, Stop> {
        match operation {
            SearchOperation::ListIndexes => Ok(listing::list_indexes(alloc, context)?),
            SearchOperation::Find(search) => {
                Ok(finding::find(alloc, context, lent.finder, &search, steps)?)
            }
        }
    }
}

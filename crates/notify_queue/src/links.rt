//! The table of the queue: for each place whether it was ever queued, and the place behind it.
ghost use Rattle.std.specs.Prelude.{◌≡◌, ℕ, ◌<◌, List, IfOk, [], length, slice_index_or};
ghost use Rattle.notify_queue.specs.Linked as spec;

use doc_tree::NoMemory;
use std::alloc::Global;

/// What the table has for a place.
#[derive(Clone, Copy, Drop)]
pub(crate) enum Link {
    /// The place was never queued.
    Never,
    /// Nothing was queued behind it yet.
    Last,
    /// This place was queued behind it.
    Before(usize),
}

/// The places that were ever queued, in order, linked by index.
#[derive(Drop)]
pub(crate) struct Links {
    pub(crate) table: Vec<Link>,
    /// The first that was ever queued.
    pub(crate) first: Option<usize>,
    /// The next that is to be taken.
    pub(crate) head: Option<usize>,
    /// The last that was queued.
    pub(crate) last: Option<usize>,
}

impl Links {
    /// A table of this many places, none of which was queued.
    pub(crate) fn make(alloc: Global, places: usize) -> Result<Links, NoMemory>
        ensures linked { IfOk result (λ links. spec.IsLinked links [] 0) }
        ensures size { IfOk result (λ links. length links.table.items ≡ places) }
    {
        Ok(Links {
            table: vec![in alloc; Link::Never; places]?,
            first: None,
            head: None,
            last: None,
        })
    }

    /// Queues a place behind all others, unless it was ever queued.
    pub(crate) fn link(&mut self, place: usize)
        requires { place < length self.old.table.items }
        ensures linked { (ever : List ℕ) (taken : ℕ) → spec.IsLinked self.old ever taken → spec.IsLinked self.new (spec.with_place ever place) taken }
        ensures size { length self.new.table.items ≡ length self.old.table.items }
    {
        if is_new(&self.table, place) {
            self.put_last(place);
        }
    }

    fn put_last(&mut self, place: usize)
        requires within { place < length self.old.table.items }
        ensures { spec.PutLast self.old self.new place }
    {
        self.table[place] = Link::Last;
        lead_on(&mut self.table, self.last, place);
        self.first = self.first.or(Some(place));
        self.head = self.head.or(Some(place));
        self.last = Some(place);
    }

    /// Takes the next place.
    pub(crate) fn take(&mut self) -> Option<usize>
        ensures value { result ≡ self.old.head }
        ensures after { spec.TakenFrom self.old self.new }
    {
        let taken = self.head;
        self.head = behind(&self.table, taken);
        taken
    }
}

fn is_new(table: &[Link], place: usize) -> bool
    requires { place < length table.now }
    ensures { result ≡ spec.is_never (slice_index_or table.now place spec.never) }
{
    matches!(table[place], Link::Never)
}

/// Links a place, if there is one, to the one behind it.
fn lead_on(table: &mut Vec<Link>, from: Option<usize>, to: usize)
    ensures { table.new.items ≡ spec.led_on table.old.items from to }
{
    if let Some(from) = from {
        if from < table.len() {
            table[from] = Link::Before(to);
        }
    }
}

/// The place behind one, if there is one.
fn behind(table: &[Link], place: Option<usize>) -> Option<usize>
    ensures { result ≡ spec.behind table.now place }
{
    match table.get(place?)? {
        Link::Before(next) => Some(*next),
        Link::Never | Link::Last => None,
    }
}

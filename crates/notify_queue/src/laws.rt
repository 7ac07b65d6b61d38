//! Laws: what first occurrences are.
ghost use Rattle.notify_queue.specs.Queue as spec;

/// The first occurrences in a list and one more pair are those in the list, and the pair unless it is among them.
pub fn one_more_first()
    ensures { spec.OneMoreFirst }
{}

//! What holds of effective leaves, without any call.
ghost use Rattle.attr_merge.specs.Laws.{LeavesShowWhatIsBelow};

/// Nothing is seen at any path below a path exactly where no leaf lies below it. So the dict that decides a path is
/// the leaf `{}` exactly where no leaf lies below, and else no leaf.
pub fn leaves_show_what_is_below()
    ensures { LeavesShowWhatIsBelow }
{}

//! Notifications by place.
use crate::entries::Timer;
use crate::types::Action;
use doc_tree::Listed;

/// What the update of a resource fires: an action on the resource at a place.
#[derive(Clone, Copy, Drop)]
pub struct Notification {
    pub action: Action,
    /// The place of the resource on which it is done.
    pub target: usize,
    pub timer: Timer,
}

/// Notifications, in order.
pub type Notifications = Listed<Notification>;

/// What the update of the resource at a place fires, as one that subscribes to it states it.
#[derive(Clone, Copy, Drop)]
pub(crate) struct Heard {
    pub(crate) by: usize,
    pub(crate) fire: Notification,
}

//! Values that forget what they have under a name.
ghost use Rattle.std.specs.Prelude.{◌≡◌, ℕ, List};

use doc_tree::Text;

/// A value that can forget what it has under a name.
pub trait Forget {
    /// What is left of it without what it has under a name.
    ghost without: { List ℕ → Self → Self };

    /// Forgets what it has under a name, if it has something there. It takes no memory.
    fn forget(&mut self, name: &Text)
        ensures { self.new ≡ without name.now self.old };
}

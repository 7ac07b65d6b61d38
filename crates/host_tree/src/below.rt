//! The part of an ordered map that is below a path.
ghost use Rattle.std.specs.Prelude.{◌≡◌, ◌<◌, ◌++◌, ◌∷◌, [], IfOk};

use crate::paths::Path;
use doc_tree::{NoMemory, Text};
use std::alloc::Global;
use std::marker::Model;

/// The two ends between which, in the order of bytes, what is below a path stands: `/d/x` lies from `/d/` on and before
/// `/d0`, and `/d-x` doesn't. Contracts see the path.
#[derive(Drop)]
pub(crate) struct Ends {
    /// The path with a slash behind it, from which on they stand.
    pub(crate) from: Text,
    /// The path with the byte after the slash behind it, before which they stand.
    pub(crate) to: Text,
}

impl Model for Ends {
    ghost use Rattle.std.specs.Prelude.{List, ℕ, ◌<◌, length};
    ghost use Rattle.host_tree.specs.Below.{front_of, AreEnds};

    ghost Value = { List ℕ };

    ghost view = { λ e. front_of e.from };

    ghost invariant = { λ e. AreEnds (front_of e.from) e.from e.to × (0 < length (front_of e.from)) };
}

impl Ends {
    /// The ends of what is below a path.
    pub(crate) fn below(alloc: Global, path: &Path) -> Result<Ends, NoMemory>
        ensures { IfOk result (λ ends. ends ≡ path.now) }
    {
        let from = with_end(alloc, path.as_str(), '/')?;
        let to = with_end(alloc, path.as_str(), '0')?;
        Ok(Ends { from, to })
    }
}

fn with_end(alloc: Global, path: &str, end: char) -> Result<Text, NoMemory>
    requires { end < 128 }
    ensures { IfOk result (λ text. text ≡ path.now ++ end ∷ []) }
{
    let mut text = String::from_str(alloc, path)?;
    text.push(end)?;
    Ok(Text::of(text))
}

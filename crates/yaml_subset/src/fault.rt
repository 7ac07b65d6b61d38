//! Why a text gives no tree.
ghost use Rattle.std.specs.Prelude.{◌≡◌};
ghost use Rattle.yaml_subset.specs.declared.fault.YamlFault.TheVariants as fault;

use doc_tree::NoMemory as OutOfMemory;
use thiserror::Error;

/// What is wrong with the line at which a text stops to spell a tree.
#[derive(Clone, Copy, Debug, PartialEq, Eq, Drop, Error)]
pub enum FaultKind {
    /// A tab stands in its leading white space.
    #[error("a tab stands in the indent")]
    Tab,
    /// It has no such tab, and is a marker of documents, or its value begins as a form of YAML that is left out:
    /// an anchor, an alias, a tag, a folded scalar, a complex key, a directive, a reserved sign, `|+`, or a number
    /// that isn't whole or is out of range.
    #[error("a form of YAML that is left out")]
    LeftOut,
    /// Anything else.
    #[error("not of the form of YAML")]
    Form,
}

/// Why a text gives no tree.
#[derive(Clone, Copy, Debug, PartialEq, Eq, Drop, Error)]
pub enum YamlFault {
    /// The text spells no tree.
    #[error("line {line}: {kind}")]
    Refused {
        /// The line with which the text stops to spell a tree, counted from 1: the lines before it spell one, and
        /// with it they spell none.
        line: usize,
        /// What is wrong with that line.
        kind: FaultKind,
    },
    /// Memory ran out.
    #[error("out of memory")]
    NoMemory,
}

impl From<OutOfMemory> for YamlFault {
    ghost from_gives = { λ _ e. e ≡ fault.NoMemory };

    fn from(_cause: OutOfMemory) -> YamlFault {
        YamlFault::NoMemory
    }
}

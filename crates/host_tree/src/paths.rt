//! Paths in their normal form.
ghost use Rattle.std.specs.Prelude.{◌≡◌, ◌==◌, IfOk, IsTrue, IsUtf8, Some, None, if◌then◌else◌, take};
ghost use Rattle.std.specs.List.{list_all, slice_split};
ghost use Rattle.host_tree.specs.Paths as spec;

use doc_tree::{NoMemory, Text};
use std::alloc::Global;
use std::marker::Model;

/// A normal path: it begins with `/`, has at most 4,096 bytes and no empty, `.` or `..` segment, and doesn't end with
/// `/`. So the root itself is none. Contracts see its bytes.
#[derive(Drop)]
pub struct Path {
    text: Text,
}

impl Model for Path {
    ghost use Rattle.std.specs.Prelude.{IsTrue, List, ℕ};
    ghost use Rattle.host_tree.specs.Paths.{is_normal};

    ghost Value = { List ℕ };

    ghost view = { λ p. p.text };

    ghost invariant = { λ p. IsTrue (is_normal p.text) };
}

impl Path {
    /// The path that a text is, or `None` exactly where it isn't normal.
    pub fn of(text: Text) -> Option<Path>
        ensures { result ≡ (if spec.is_normal text then Some text else None) }
    {
        if is_normal(text.as_str()) {
            Some(Path { text })
        } else {
            None
        }
    }

    /// The path as a `str` that borrows it.
    pub fn as_str(&self) -> &str
        ensures value { result.now ≡ self.now }
        ensures normal { IsTrue (spec.is_normal self.now) }
        ensures utf8 { IsUtf8 self.now }
    {
        self.text.as_str()
    }

    /// The path as a text that borrows it.
    pub fn as_text(&self) -> &Text
        ensures value { result.now ≡ self.now }
        ensures normal { IsTrue (spec.is_normal self.now) }
    {
        &self.text
    }

    /// The proper prefix of the path that ends before the slash at `end`, which isn't its first byte.
    pub fn prefix(&self, alloc: Global, end: usize) -> Result<Path, NoMemory>
        requires { spec.EndsPrefix self.now end }
        ensures { IfOk result (λ path. path ≡ take end self.now) }
    {
        Ok(Path {
            text: Text::from_str(alloc, self.text.as_str().split_at(end).0)?,
        })
    }

    /// An equal path of its own.
    pub fn copy(&self, alloc: Global) -> Result<Path, NoMemory>
        ensures { IfOk result (λ path. path ≡ self.now) }
    {
        Ok(Path {
            text: self.text.copy(alloc)?,
        })
    }
}

/// Whether a text is a normal path.
pub fn is_normal(path: &str) -> bool
    ensures { result ≡ spec.is_normal path.now }
{
    let bytes = path.as_bytes();
    bytes.len() <= 4096 && is_rooted(bytes)
}

fn is_rooted(path: &[u8]) -> bool
    ensures { result ≡ spec.is_rooted path.now }
{
    match path {
        [b'/', behind @ ..] => are_segments(behind),
        _ => false,
    }
}

fn are_segments(behind: &[u8]) -> bool
    ensures { result ≡ list_all spec.is_segment (slice_split (λ c. c == 47) behind.now) }
{
    behind
        .split(|byte| *byte == b'/')
        .all(|segment| is_segment(segment))
}

fn is_segment(segment: &[u8]) -> bool
    ensures { result ≡ spec.is_segment segment.now }
{
    match segment {
        [] => false,
        [b] => *b != b'.',
        [b, c] => !(*b == b'.' && *c == b'.'),
        _ => true,
    }
}

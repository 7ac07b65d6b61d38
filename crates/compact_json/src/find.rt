//! Finding a part in the tokens of a document's text.
ghost use Rattle.compact_json.specs.Compact.{first_doc};
ghost use Rattle.compact_json.specs.Find.{FindsPart};
ghost use Rattle.compact_json.specs.Next.{AtDoc};
ghost use Rattle.doc_tree.specs.Part.{at, part_at};
ghost use Rattle.std.specs.Prelude.{◌≤◌, length};

use crate::next::{enters_dict, next_key, pass};
use doc_tree::Text;
use json::Reader;

/// Goes to the part at a path of keys, or says that there is none. The document nests at most `depth` deep.
pub(crate) fn goes_to(reader: &mut Reader<'_>, path: &[Text], depth: usize) -> bool
    requires at { AtDoc reader.old }
    requires depth { length reader.old ≤ depth }
    ensures { FindsPart result (at path.now (first_doc reader.old)) reader.new }
{
    for key in path {
        if !goes_to_key(reader, key.as_str(), depth) {
            return false;
        }
    }
    true
}

/// Goes to the part at a key, or says that there is none. The document nests at most `depth` deep.
fn goes_to_key(reader: &mut Reader<'_>, key: &str, depth: usize) -> bool
    requires at { AtDoc reader.old }
    requires depth { length reader.old ≤ depth }
    ensures part { FindsPart result (part_at key.now (first_doc reader.old)) reader.new }
    ensures shorter { length reader.new ≤ length reader.old }
{
    if !enters_dict(reader) {
        return false;
    }
    while let Some(found) = next_key(reader) {
        if found == key {
            return true;
        }
        pass(reader, depth);
    }
    false
}

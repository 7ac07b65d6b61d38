//! The names under which items of data bags are kept: `BAG/ID`.
ghost use Rattle.std.specs.Prelude.{◌≡◌, bytes_eq, option_copied};
ghost use Rattle.object_store.specs.Items.{behind_front, item_front, item_name};

/// The id of the bag's item that is kept under a name, where the name is that of one.
pub(crate) fn id_in<'a>(bag: &str, name: &'a str) -> Option<&'a str>
    ensures { option_copied result ≡ behind_front (item_front bag.now) name.now }
{
    match behind(bag, name) {
        Some(rest) => behind("/", rest),
        None => None,
    }
}

/// Whether a name is that of the bag's item of this id.
pub(crate) fn is_item(name: &str, bag: &str, id: &str) -> bool
    ensures { result ≡ bytes_eq (item_name bag.now id.now) name.now }
{
    match id_in(bag, name) {
        Some(rest) => rest == id,
        None => false,
    }
}

fn behind<'a>(front: &str, text: &'a str) -> Option<&'a str>
    ensures { option_copied result ≡ behind_front front.now text.now }
{
    text.strip_prefix(front)
}

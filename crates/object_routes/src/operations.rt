//! What can be asked of the routes of these groups: one operation for each path and method of the table
//! of routes, with all that the path and the body say.

use doc_tree::Text;
use org_core::Stored;

/// What can be asked of an organisation as a whole.
#[derive(Clone, Copy, Debug, PartialEq, Eq)]
pub enum OrganisationOperation {
    /// To create it.
    Create,
    /// To show it.
    Show,
}

/// What can be asked of a collection of objects.
#[derive(Drop)]
pub enum ObjectsOperation {
    /// To list its objects.
    List,
    /// To create this object.
    Create(Stored),
    /// To show the object of this name.
    Show(Text),
    /// To put this object in the place of the one of this name.
    Replace(Text, Stored),
    /// To remove the object of this name.
    Remove(Text),
}

/// What can be asked of data bags and their items.
#[derive(Drop)]
pub enum DataOperation {
    /// To list the bags.
    ListBags,
    /// To create this bag.
    CreateBag(Stored),
    /// To list the items of this bag.
    ListItems(Text),
    /// To create this item in this bag.
    CreateItem(Text, Stored),
    /// To remove this bag with all its items.
    RemoveBag(Text),
    /// To show the item of this id in this bag.
    ShowItem(Text, Text),
    /// To put this item in the place of the one of this id in this bag.
    ReplaceItem(Text, Text, Stored),
    /// To remove the item of this id from this bag.
    RemoveItem(Text, Text),
}

//! Information object sets (X.681, 12), and table constraints, which refer to them.

use crate::item::Item;

/// An information object set.
#[derive(Drop)]
pub struct ObjectSet<'a> {
    /// The name of the set.
    pub name: Item<'a>,
    /// The names of the objects in the set, and of the other sets that it includes. For an object
    /// without a name, the whole text of the object.
    pub members: Vec<Item<'a>>,
}

/// A table constraint (X.682, 10). It allows the values that one field of a class has in the
/// objects of a set.
#[derive(Drop)]
pub struct TableUse<'a> {
    /// The name of the field of the class, without `&`.
    pub field: Item<'a>,
    /// The names of the object sets, and of the single objects, that the constraint lists.
    pub members: Vec<Item<'a>>,
    /// The name of the component whose value selects the object. Only a component relation
    /// constraint (`{@name}`) has such a name; `None` for other table constraints.
    pub by: Option<Item<'a>>,
}

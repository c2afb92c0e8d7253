//! SEQUENCE OF and SET OF, and their items.

pub(crate) mod item;
pub(crate) mod item_impls;
pub(crate) mod item_walk;
pub(crate) mod items;
pub(crate) mod iter;
pub(crate) mod lawful_item;
pub(crate) mod sequence_of;
pub(crate) mod set_of;
pub(crate) mod set_walk;

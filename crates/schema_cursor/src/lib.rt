//! Moves through the elements that `schema_read` has read, and gives their names, types, octets and
//! values.
//!
//! [`Cursor::root`] takes octets, a table of types, and the tree that `read` made of them. It
//! returns the outermost element. These functions lead to the elements inside:
//!
//! - [`Cursor::children`] goes through all elements directly inside.
//! - [`Cursor::field`] finds an element by its name.
//! - [`Cursor::at`] follows a path, such as `tbsCertificate.extensions[2].extnValue.cA`.
//!
//! [`Cursor::place`] prints the path of an element. [`Cursor::integer`], [`Cursor::text`],
//! [`Cursor::time`] and similar functions read the value of an element.
//!
//! Nothing allocates. A tree with departures, which are broken rules, is no error: functions return
//! `None` for what is not there.
#![tactic(auto)]

mod bits;
mod child;
mod children;
mod cursor;
mod names;
mod part;
mod path;
mod place;
mod rows;
mod values;

pub use bits::BitNames;
pub use children::Children;
pub use cursor::Cursor;
pub use place::Place;

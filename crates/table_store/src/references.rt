//! References between tables: the index of children, the parents of given rows, and the refusals of
//! changes by missing parents and by lost children.

pub(crate) mod child_index;
mod child_rows;
mod child_set;
mod children;
pub(crate) mod first_place;
pub(crate) mod judged;
pub(crate) mod parent_rows;
pub(crate) mod parent_set;
pub(crate) mod refusals;

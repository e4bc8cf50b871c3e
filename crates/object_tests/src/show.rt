//! The text of an object: each field by its name, so that a row of a table can tell what was read.
//!
//! A struct is `{field:value,..}`, a list `[item,..]`, a map `{"key":"value",..}`, a string stands
//! in quotes as it is, and what is absent is `-`.

mod base;
mod core_kinds;
mod object;
mod page;
mod policy;
mod profile;
mod query;
mod route;
mod view;

pub use page::{Page, Show};

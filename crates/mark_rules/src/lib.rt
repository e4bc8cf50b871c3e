//! What a change of the objects can affect: the marks of objects, the rows that views are joined
//! from, the marks that each row reads, and the law that a row which reads no mark of a change is
//! the same after it.
//!
//! Depends on view_rules for the views, and on view_types for objects and marks. The contracts of
//! `marks` and `object_marks` cite `specs/Marks` (the order of marks, and the marks of an object).
//! Those of `laws` cite `specs/Changes` (changes of a map of objects), `specs/Rows` and
//! `specs/Reads` (the six rows and what each reads), `specs/Laws`, `specs/MarkLookups` (objects by
//! their marks) and `specs/ServerMatches`.
#![tactic(auto)]

pub mod keys;
pub mod laws;
pub mod marks;
pub mod object_marks;

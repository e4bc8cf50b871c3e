//! The server parts of ports of Pods, stored in rows for the clients that request them: the
//! protocol, the policy, the Server, and the paths of the Pod's probes.
//!
//! Depends on row_table for the rows, on mark_rules for the definition of a row and the marks that
//! it reads, on object_store, on policy_rows for whether a Server selects a port, on view_scratch
//! for the Pod of a port and the defaults without a Server, and on chunked_map for the Servers that
//! match a port.
//! `ServerIndex` is the table of row_table over `ServerRule`, so its contract is that of
//! `RowIndex`, with `server_part` and `server_reads` of mark_rules as its filter. A row stores the
//! Servers that match its port (`specs/Matches`, `specs/Standing`), so that a changed Server is
//! inserted or removed without checking the others, and is looked up once for all rows. A row is
//! passed over if filters of its Servers' names and of the values of its Pod's labels show that the
//! change doesn't concern it (`specs/Probes`, `specs/Concerned`, `specs/Noting`). A new row only
//! checks the Servers whose first required label has the value of one of its Pod's
//! (`specs/Requiring`), if there are few.
#![tactic(auto)]

pub mod change_notes;
mod concerns;
pub mod index;
pub mod kept;
pub mod matching;
mod name_filter;
pub mod notes;
mod port;
mod required;
pub mod rule;
mod servers;

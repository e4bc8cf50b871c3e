//! Laws on the messages of proxies and their encodings. The functions state them and do nothing.
//!
//! Depends on proxy_proto for the definitions. The encoding of a message is read back as that
//! message, so no two messages have the same encoding, and a message of plain endpoints is short.
//! Proofs about other messages, such as requests, use the same lemmas: `proofs/Found` finds a field
//! among records, `proofs/Passing` passes the check, and `proofs/FieldBlocks` with
//! `proofs/WrittenFields` does both for a message field by field.
#![tactic(auto)]

pub mod laws;

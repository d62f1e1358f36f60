//! Maps and sets of ranges for callers in C: a static library.
//!
//! A caller keeps a `Handle` of its own, all zero bytes before the first call. It neither copies it
//! nor changes it, and gives it to one call at a time. Each call answers by a status of
//! `range_ffi`; `bindings/README.md` says what a caller owes.
//!
//! Where to find what:
//!
//! - the calls for C, kind by kind: `src/exports/`; what each does to a map or a set:
//!   `range_handles/src/{kept_map,kept_set}.rt`; what it asks of one: `range_handles/src/reads.rt`
//! - which status a call answers: `specs/Statuses.antt`
#![tactic(auto)]

mod exports;

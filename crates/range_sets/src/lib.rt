//! Sets of keys, on the contract of the map alone.
//!
//! Where to find what:
//!
//! - which keys a set holds, before and after a call: `range_set_extend/specs/KeySets.antt`
//! - a set's `try_insert` and `retain`: `src/set/{try_insert,retain}.rt`, `specs/Adding.antt`,
//!   `proofs/Retained.antt`
//! - a set extended by many ranges: `src/set/extend.rt`, over `range_set_extend`
//! - equality, order, hash and text of sets: `src/set/{compare,text}.rt`,
//!   `specs/{SetOrder,SetTexts}.antt`, against the map's in `proofs/Likeness.antt`
//! - whether the keys of one set are among those of another: `src/set/relations.rt`, over
//!   `range_map/src/inner/relate.rt`
//! - the symmetric difference of two sets, by a test of which of them has a key:
//!   `src/set/algebra.rt`, over `combine` of the map; `specs/TwoSets.antt`, `proofs/KeptKeys.antt`
//! - the intersection of two sets: what each range shares with one of the other set, by their ends:
//!   `src/set/shared.rt`, `specs/Sharing.antt`, `proofs/Sharing.antt`
//! - the difference of two sets: what each range has before the next one of the other set, and what
//!   is left past that: `src/set/subtracted.rt`, `specs/Subtracting.antt`,
//!   `proofs/Subtracting.antt`
//! - the union of two sets: their ranges by their starts, each joined to the last one where it
//!   meets or touches it: `src/set/union.rt`, `specs/Uniting.antt`, `proofs/Uniting.antt`
//! - a set changed by another: `src/set/in_place.rt`, over that of the map; `proofs/InPlace.antt`
//! - the complement, put together with no search: `src/set/complement.rt`, over
//!   `range_map/src/inner/append.rt`
//! - the usual laws of unions, intersections, differences and complements, by truth values: laws
//!   for users: `src/laws.rt`, `specs/SetLaws.antt`, `proofs/SetLaws.antt`
//! - a complement twice gives the set back: a law for users: `src/laws.rt`,
//!   `proofs/{Enclosing,Matching,ComplementTwice}.antt`
#![tactic(auto)]

mod laws;
pub mod set;

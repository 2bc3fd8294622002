#![tactic(auto)]
// The words of a table by its layout: each area's records, a node's children as a part of the lent
// slice, keys and their order. Headers, ranges end to end, and search by halving, for patterns too.
pub mod areas;
pub mod bisect;
pub mod header;
pub mod key;
pub mod ranges;

//! Lattices: values that replicas can merge in any order, any number of times, and end equal.
//!
//! A state-based replicated data type keeps a value that only grows. A replica changes its own value, sends
//! it now and then, and joins what it receives. If the join is associative, commutative and idempotent,
//! replicas that have seen the same updates hold equal values, in whatever order and however often these came
//! (Shapiro, Preguiça, Baquero and Zawirski 2011). Here these laws are laws of the trait [`Lattice`]: each type
//! proves them, and generic code is proved from them.
//!
//! | type | what it holds | its join |
//! |---|---|---|
//! | [`Max`], [`NameMax`], [`Or`] | a number, a name by its code, a flag | the greater; the disjunction |
//! | [`Pair`] | two values | part by part |
//! | [`Lex`] | a value under a first part that grows | the greater first part wins; at equal ones the second parts are joined |
//! | [`GrowSet`] | a set to which keys are added | the union |
//! | [`GrowMap`] | a map, total by a start | the join of the values at each key |
//! | [`Tally`] | a sum for each replica | the greater sum of each |
//!
//! # Use
//!
//! - A counter is a [`Tally`]: each replica calls `bump` with its own number, and the count is its
//!   `total`. A replica raises no other's sum, and two replicas never share a number.
//! - A register whose last write wins is a `Lex<Max, Lex<Max, V>>` of a time, a replica's number and the value.
//!   A pair of time and replica is used for one write alone.
//! - A flag that is raised and never lowered is an [`Or`], a set of what was ever added a [`GrowSet`].
//! - What is removed is kept too: a set of which keys are also removed for good is a [`Pair`] of two [`GrowSet`]s, a
//!   counter that also goes down a [`Pair`] of two tallies. Nothing here takes anything away.
//!
//! # Conditions
//!
//! Two values that are joined or compared must go together (`kin` of the trait). Any two values of [`Max`],
//! [`NameMax`], [`Or`] and [`Tally`] do, those of [`Pair`] and [`Lex`] if their parts do, two maps if their
//! starts are equal and their values at each key go together. For sets and maps keys that compare equal must be
//! one key, as it is with numbers (`tells_numbers_apart`). `goes_with` of each growing type gives a caller the fact.
//!
//! # Memory
//!
//! A [`Flat`] type is joined in place and takes none. A join of a growing type makes at most one new list, and
//! copies of a map's values; what is already absorbed takes none; after an error the value is as it was. A map of
//! flat values can be joined in place, so that only new keys take memory ([`Room`]).
//!
//! Who changes several values takes all memory first: `stage` what each will be and then [`commit`] them, or keep the
//! [`Undo`] of each step and take the steps back if a later one fails.
//!
//! Each growing type is one ascending list, and equal contents are one list, so that two replicas can be compared,
//! hashed or printed by it.
#![tactic(auto)]

mod grow_map;
mod grow_set;
mod in_place;
mod laws;
mod leaves;
mod parts;
mod tallies;
mod undo;

pub use grow_map::GrowMap;
pub use grow_set::GrowSet;
pub use in_place::Room;
pub use kat_join::{Chain, Flat, Lattice, Lex, commit};
pub use laws::{
    goes_at_each_key, join_all, joins_at_each_key, members_give_the_whole, order_is_free,
    same_keys_same_set, same_sums_same_tally, same_values_same_map, takes_greater_sums,
    tells_numbers_apart, totals_grow, union_has_both, wholes_join,
};
pub use leaves::{Max, NameMax, Or};
pub use parts::Pair;
pub use tallies::Tally;
pub use undo::Undo;

//! The forms of a language: what stays of each line when its words are taken out.
use crate::go::go_form;
use crate::languages::{Family, Language};
use crate::python::python_form;
use crate::rust::rust_form;
use crate::typescript::typescript_form;

/// A small text with places for words, which are given in this order. A form that is empty writes no line.
#[derive(Clone, Copy)]
pub enum Form {
    // Names and values.
    /// An owner and a field.
    Own,
    /// What is at a key, or the start: a map, a key, the start.
    Held,
    /// The same if the start is 0, false or the empty name.
    HeldZero,
    /// The replica's number as a value.
    Replica,
    /// How far a number is above 0.
    Above,
    /// How far it is below 0.
    Below,
    /// Whether a value of several leaves lacks another: two values, the function.
    Lacks,
    /// The same of values that are always one at or below the other.
    IsLess,
    /// Whether a number or a name is less than another.
    Less,
    /// Whether a truth value is false.
    IsFalse,
    /// Whether the first of two truth values is false and the second true.
    IsOnlySecond,
    /// Two values joined: the values, the function.
    Joined,
    /// A leaf of a value.
    Member,
    /// A key is in a set: the set, the key.
    Has,
    /// The sum of all replicas.
    Total,
    /// The same at a key.
    TotalAt,

    // Statements.
    /// A type's word, a parameter, the answer that comes with an error.
    CheckName,
    CheckFlag,
    CheckNatural,
    CheckInteger,
    /// A parameter: what comes before its check if it is a number that is read later.
    Checked,
    /// A parameter that isn't read and has no check.
    Unread,
    Tick,
    Tock,
    /// The place of the replica's own sum.
    Place,
    /// The sums, a local name, the weight.
    Grow,
    /// The same, and the key.
    GrowAt,
    /// The sums, the local name.
    Keep,
    /// The same, and the key to keep.
    KeepAt,
    /// The local name, and the type of its value.
    RecordOpen,
    RecordClose,
    /// A name and its value.
    Let,
    /// A cell, the condition and the value.
    PutCell,
    /// A table, the condition, the value, and the key to keep.
    PutTable,
    /// A set, a key, and the key to keep.
    Insert,
    Return,

    // Merging: the part of this replica, that of the other one, the condition, the new value, the field of what has changed, the names of
    // a key and a value.
    MergeClock,
    /// The class of what has changed.
    MergeOpen,
    MergeCell,
    MergeTable,
    MergeSet,
    MergeTally,
    MergeTallies,
    /// Whether a part has changed: its field of what has changed.
    ChangedValue,
    ChangedKeys,
    /// Nothing has changed in a type without parts.
    ChangedNothing,
    /// Whether anything has changed.
    MergeClose,

    // Differences: the part of this replica, what is known of it, that of the difference, the condition, the value to keep, the names of a
    // key and a value.
    LackCell,
    LackTable,
    LackSet,
    LackTally,
    LackTallies,

    // Copies: the part of this replica, that of the copy.
    CopyCell,
    CopyTable,
    CopySet,
    CopyTally,
    CopyTallies,
    /// The keys of a part.
    Keys,

    // Heads of methods.
    /// The method, the class, and what comes before `self` in a method that changes it.
    HeadOpen,
    /// A parameter and its type.
    Param,
    /// The type of the answer.
    HeadEnd,

    // Texts of states: a part.
    WriteSet,
    WriteTally,
    WriteTallies,
}

/// The form of a language.
pub(crate) fn form_of(language: Language, form: Form) -> &'static str {
    match language.family() {
        Family::TypeScript => typescript_form(form),
        Family::Python => python_form(form),
        Family::Rust => rust_form(form),
        Family::Go => go_form(form),
    }
}

//! What formulas say if propositional variables have values.
ghost use Rattle.std.specs.Prelude.{◌≡◌, ◌↔◌, ◌-ℤ◌, IsTrue, false, if◌then◌else◌, int_lt, map, neg_ℤ, not, pos, slice_index_or};
ghost use Rattle.std.specs.Ordering.{int_eq};
ghost use Rattle.kat_linear.specs.Rows.{form_of, negated_form};
ghost use Rattle.kat_form.specs.Encodings.{sense_of, senses_of};
ghost use Rattle.kat_form.specs.Encodings.Sense.{atom, truth};
ghost use Rattle.kat_form.specs.Facts.{fact_of, facts_of, listed};
ghost use Rattle.kat_form.specs.Laws.{read_by, variable_value};
ghost use Rattle.kat_form.specs.Meanings.{AreTrueFacts, all_true, any_true, row_value, signed, value_of, values_of};
ghost use Rattle.kat_form.specs.Readings.{place_of, same_sense, same_terms};
ghost use Rattle.kat_points.specs.Points.{value_at};

use kat_form::{Formula, Meaning};
use kat_linear::Row;

/// Whether all facts are true.
pub(crate) fn are_true(facts: &[Formula], meanings: &[Meaning], values: &[bool]) -> bool
    ensures { IsTrue result ↔ AreTrueFacts (read_by (value_at values.now) (senses_of meanings.now)) (facts_of facts.now) }
{
    all_say(facts, meanings, values)
}

/// A formula's value.
#[cycle(saying)]
fn says(formula: &Formula, meanings: &[Meaning], values: &[bool]) -> bool
    ensures { result ≡ value_of (read_by (value_at values.now) (senses_of meanings.now)) (fact_of formula.now) }
{
    match formula {
        Formula::True => true,
        Formula::False => false,
        Formula::Lit { var, positive } => truth_value(*var, *positive, meanings, values),
        Formula::AtMost(row) => row_value(row, meanings, values),
        Formula::Above(row) => !row_value(row, meanings, values),
        Formula::And(parts) => all_say(parts, meanings, values),
        Formula::Or(parts) => one_says(parts, meanings, values),
    }
}

#[cycle(saying)]
fn all_say(parts: &[Formula], meanings: &[Meaning], values: &[bool]) -> bool
    ensures { result ≡ all_true (values_of (read_by (value_at values.now) (senses_of meanings.now)) (listed (facts_of parts.now))) }
{
    for part in parts {
        if !says(part, meanings, values) {
            return false;
        }
    }
    true
}

#[cycle(saying)]
fn one_says(parts: &[Formula], meanings: &[Meaning], values: &[bool]) -> bool
    ensures { result ≡ any_true (values_of (read_by (value_at values.now) (senses_of meanings.now)) (listed (facts_of parts.now))) }
{
    for part in parts {
        if says(part, meanings, values) {
            return true;
        }
    }
    false
}

/// The value of a truth variable, or of its negation.
fn truth_value(variable: u32, positive: bool, meanings: &[Meaning], values: &[bool]) -> bool
    ensures { result ≡ signed positive (read_by (value_at values.now) (senses_of meanings.now) (truth variable)) }
{
    let value = value_of(truth_place(variable, meanings), values);
    if positive { value } else { !value }
}

/// The value of the variable with a number, from 1, and false if there is none.
fn value_of(variable: Option<usize>, values: &[bool]) -> bool
    ensures { result ≡ variable_value (value_at values.now) variable }
{
    match variable {
        None => false,
        Some(variable) => value(values, variable.saturating_sub(1)),
    }
}

fn value(values: &[bool], place: usize) -> bool
    ensures { result ≡ slice_index_or values.now place false }
{
    place < values.len() && values[place]
}

/// The number, from 1, of the propositional variable that stands for a truth variable.
fn truth_place(variable: u32, meanings: &[Meaning]) -> Option<usize>
    ensures { result ≡ place_of (truth variable) (senses_of meanings.now) }
{
    for (i, meaning) in meanings.iter().enumerate() {
        if is_truth(meaning, variable) {
            return Some(i + 1);
        }
    }
    None
}

fn is_truth(meaning: &Meaning, variable: u32) -> bool
    ensures { result ≡ same_sense (truth variable) (sense_of meaning.now) }
{
    match meaning {
        Meaning::Truth(other) => variable == *other,
        _ => false,
    }
}

/// Whether a row's sum is at most 0, by the value of its atom.
fn row_value(row: &Row, meanings: &[Meaning], values: &[bool]) -> bool
    ensures { result ≡ row_value (read_by (value_at values.now) (senses_of meanings.now)) (form_of row.now) }
{
    match row.terms.as_slice() {
        [] => row.constant <= 0,
        [first, ..] => led_value(first.1, row, meanings, values),
    }
}

/// The value of a row with variables, of which the first has this coefficient: if that is below 0, the row's negation is the
/// atom.
fn led_value(first: i128, row: &Row, meanings: &[Meaning], values: &[bool]) -> bool
    ensures { result ≡ (if int_lt first (pos 0) then not (read_by (value_at values.now) (senses_of meanings.now)
        (atom (negated_form (form_of row.now)))) else read_by (value_at values.now) (senses_of meanings.now) (atom (form_of row.now))) }
{
    if first < 0 {
        !value_of(turned_place(row, meanings), values)
    } else {
        value_of(atom_place(row, meanings), values)
    }
}

/// The number, from 1, of the propositional variable that stands for an atom.
fn atom_place(row: &Row, meanings: &[Meaning]) -> Option<usize>
    ensures { result ≡ place_of (atom (form_of row.now)) (senses_of meanings.now) }
{
    for (i, meaning) in meanings.iter().enumerate() {
        if is_atom(meaning, row) {
            return Some(i + 1);
        }
    }
    None
}

fn is_atom(meaning: &Meaning, row: &Row) -> bool
    ensures { result ≡ same_sense (atom (form_of row.now)) (sense_of meaning.now) }
{
    match meaning {
        Meaning::Atom(other) => are_same(&row.terms, &other.terms)
            && row.constant == other.constant,
        _ => false,
    }
}

fn are_same(terms: &[(u32, i128)], others: &[(u32, i128)]) -> bool
    ensures { result ≡ same_terms terms.now others.now }
{
    match terms {
        [] => others.is_empty(),
        [term, terms @ ..] => match others {
            [] => false,
            [other, others @ ..] => {
                term.0 == other.0 && term.1 == other.1 && are_same(terms, others)
            }
        },
    }
}

/// The number, from 1, of the propositional variable that stands for the negation of a row.
fn turned_place(row: &Row, meanings: &[Meaning]) -> Option<usize>
    ensures { result ≡ place_of (atom (negated_form (form_of row.now))) (senses_of meanings.now) }
{
    for (i, meaning) in meanings.iter().enumerate() {
        if is_turned(meaning, row) {
            return Some(i + 1);
        }
    }
    None
}

fn is_turned(meaning: &Meaning, row: &Row) -> bool
    ensures { result ≡ same_sense (atom (negated_form (form_of row.now))) (sense_of meaning.now) }
{
    match meaning {
        Meaning::Atom(other) => {
            are_turned(&row.terms, &other.terms) && is_difference(row.constant, other.constant)
        }
        _ => false,
    }
}

fn are_turned(terms: &[(u32, i128)], others: &[(u32, i128)]) -> bool
    ensures { result ≡ same_terms (map (λ t. (t.0, neg_ℤ t.1)) terms.now) others.now }
{
    match terms {
        [] => others.is_empty(),
        [term, terms @ ..] => match others {
            [] => false,
            [other, others @ ..] => {
                term.0 == other.0 && is_opposite(term.1, other.1) && are_turned(terms, others)
            }
        },
    }
}

/// Whether the second number is the opposite of the first.
fn is_opposite(number: i128, other: i128) -> bool
    ensures { result ≡ int_eq (neg_ℤ number) other }
{
    match number.checked_neg() {
        Some(opposite) => opposite == other,
        None => false,
    }
}

/// Whether the second number is 1 less the first.
fn is_difference(number: i128, other: i128) -> bool
    ensures { result ≡ int_eq (pos 1 -ℤ number) other }
{
    match 1_i128.checked_sub(number) {
        Some(difference) => difference == other,
        None => false,
    }
}

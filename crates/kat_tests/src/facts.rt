//! Facts and their encodings.
use kat_form::{Encoded, Formula, are_sized, clauses_of};
use kat_linear::Row;
use std::alloc::{AllocError, Global};
use std::test::Fail;

// The greatest number that a fact may have.
const EDGE: i128 = 1 << 125;

fn truth(var: u32, positive: bool) -> Formula {
    Formula::Lit { var, positive }
}

// The row coefficient times the variable 0, plus the constant.
fn line(alloc: Global, coefficient: i128, constant: i128) -> Result<Row, AllocError> {
    let terms = vec![in alloc; (0, coefficient)]?;
    Ok(Row { terms, constant })
}

// The encoding of facts as a text, if they are sized.
fn encoding_of(alloc: Global, facts: &[Formula]) -> Result<String, AllocError> {
    if !are_sized(facts) {
        return Err(AllocError);
    }
    let encoded = clauses_of(alloc, facts)?;
    text_of(alloc, &encoded)
}

// An encoding as a text.
fn text_of(alloc: Global, encoded: &Encoded) -> Result<String, AllocError> {
    if !encoded.is_fit() {
        return String::from_str(alloc, "unfit");
    }
    format!(in alloc; "{encoded:?}")
}

// The start of a life: the variable 7, or none of 8 and 9.
fn start_of_a_life(alloc: Global) -> Result<String, AllocError> {
    let none = Formula::And(vec![in alloc; truth(8, false), truth(9, false)]?);
    let fact = Formula::Or(vec![in alloc; truth(7, true), none]?);
    let facts = vec![in alloc; fact]?;
    encoding_of(alloc, &facts)
}

// Bounds of one number, whose atoms all have it with 1.
fn bounds(alloc: Global) -> Result<String, AllocError> {
    let low = Formula::AtMost(line(alloc, 1, 0)?);
    let high = Formula::AtMost(line(alloc, -1, 3)?);
    let again = Formula::Above(line(alloc, -1, 1)?);
    let facts = vec![in alloc; low, high, again]?;
    encoding_of(alloc, &facts)
}

// Facts that fold, in whole or in part.
fn folded(alloc: Global) -> Result<String, AllocError> {
    let hidden = Formula::And(vec![in alloc; Formula::AtMost(line(alloc, 5, 0)?), Formula::False]?);
    let only = Formula::Or(vec![in alloc; hidden, truth(3, false), Formula::False]?);
    let same = Formula::Or(vec![in alloc; truth(3, false), truth(3, false)]?);
    let nothing = Formula::Or(Vec::new(alloc));
    let facts = vec![in alloc; Formula::True, only, same, nothing]?;
    encoding_of(alloc, &facts)
}

// A fact with the least constant.
fn least_constant(alloc: Global) -> Result<String, AllocError> {
    let least = Formula::AtMost(line(alloc, -1, -EDGE)?);
    let facts = vec![in alloc; least]?;
    encoding_of(alloc, &facts)
}

#[test]
fn facts_are_encoded(rt: HostRuntime) -> Result<(), Fail> {
    let alloc = rt.alloc();
    assert!(rt;
        start_of_a_life(alloc)?.as_str()
            == "Encoded { clauses: [[-4, -2], [-4, -3], [1, 4]], meanings: [Truth(7), Truth(8), Truth(9), Gate], numbers: 0 }"
    );
    assert!(rt;
        bounds(alloc)?.as_str()
            == "Encoded { clauses: [[1], [-2], [1]], meanings: [Atom(Row { terms: [(0, 1)], constant: 0 }), Atom(Row { terms: [(0, 1)], constant: -2 })], numbers: 1 }"
    );
    assert!(rt;
        folded(alloc)?.as_str()
            == "Encoded { clauses: [[-1], [-1, -1], []], meanings: [Truth(3)], numbers: 0 }"
    );
    assert!(rt;
        least_constant(alloc)?.as_str()
            == "Encoded { clauses: [[-1]], meanings: [Atom(Row { terms: [(0, 1)], constant: 42535295865117307932921825928971026433 })], numbers: 1 }"
    );
    Ok(())
}

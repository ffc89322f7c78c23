//! Designs with values that no design file has.

use kat_design::{Ask, Component, Design};
use kat_num::{Items, Sort, Value};
use kat_shape::Shape;
use kat_sort_check::{DesignError, sort_check};
use kat_type::{QuerySig, Signature};
use std::alloc::{AllocError, Global};
use std::test::Fail;

/// The signature of one query without parameters.
fn signature(alloc: Global, sort: Sort) -> Result<Signature, AllocError> {
    let query = QuerySig {
        name: 3,
        sorts: Items::from_vec(Vec::new(alloc)),
        sort,
    };
    let queries = vec![in alloc; query]?;
    Ok(Signature {
        ops: Items::from_vec(Vec::new(alloc)),
        queries: Items::from_vec(queries),
    })
}

/// The first wrong place of a design; no index if there is none.
fn wrong_place(alloc: Global, design: &Design) -> Result<Items<u32>, AllocError> {
    match sort_check(alloc, design) {
        Ok(()) => Ok(Items::from_vec(Vec::new(alloc))),
        Err(DesignError::BadDesign(place)) => Ok(place),
        Err(DesignError::Memory) => Err(AllocError),
    }
}

/// The first wrong place of a design without operations: its components, and a constant that its query answers.
fn refusal(
    alloc: Global,
    components: Vec<Component>,
    answer: Value,
    sort: Sort,
) -> Result<Items<u32>, AllocError> {
    let sig = signature(alloc, sort)?;
    let asks = vec![in alloc; Ask::Const(answer)]?;
    let design = Design {
        sig,
        components: Items::from_vec(components),
        asks: Items::from_vec(asks),
    };
    wrong_place(alloc, &design)
}

/// A cell of one leaf with this start.
fn cell(alloc: Global, start: Value) -> Result<Component, AllocError> {
    let shape = match start {
        Value::Name(_) => Shape::Name,
        _ => Shape::Max,
    };
    Ok(Component::Cell {
        shape,
        starts: Items::from_vec(vec![in alloc; start]?),
        effects: Items::from_vec(Vec::new(alloc)),
    })
}

/// Whether a cell with this start is refused at the start.
fn is_refused_start(alloc: Global, start: Value) -> Result<bool, AllocError> {
    let components = vec![in alloc; cell(alloc, start)?]?;
    let found = refusal(alloc, components, Value::Bool(true), Sort::Bool)?;
    Ok(found.as_slice() == [3, 0, 0, 2, 0].as_slice())
}

/// How many indices the place has at which this answer is refused.
fn depth_of_answer(alloc: Global, answer: Value) -> Result<usize, AllocError> {
    let sort = match answer {
        Value::Name(_) => Sort::Name,
        _ => Sort::Int,
    };
    let found = refusal(alloc, Vec::new(alloc), answer, sort)?;
    Ok(found.as_slice().len())
}

/// Whether a set of truth values is refused at the sort of its keys.
fn is_refused_key(alloc: Global) -> Result<bool, AllocError> {
    let set = Component::Set {
        key: Sort::Bool,
        effects: Items::from_vec(Vec::new(alloc)),
    };
    let components = vec![in alloc; set]?;
    let found = refusal(alloc, components, Value::Bool(true), Sort::Bool)?;
    Ok(found.as_slice() == [3, 0, 0, 1].as_slice())
}

#[test]
fn values_that_no_file_has_are_refused(rt: HostRuntime) -> Result<(), Fail> {
    let alloc = rt.alloc();
    for (start, is_refused) in [
        (Value::Num(18_446_744_073_709_551_616), true),
        (Value::Num(-9_223_372_036_854_775_809), true),
        (Value::Name(1), true),
        (Value::Name(0), false),
    ] {
        assert!(rt; is_refused_start(alloc, start)? == is_refused);
        assert!(rt; depth_of_answer(alloc, start)? == if is_refused { 3 } else { 0 });
    }
    assert!(rt; is_refused_key(alloc)?);
    Ok(())
}

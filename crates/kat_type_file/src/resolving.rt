//! The type that phrases say.
ghost use Rattle.std.specs.Prelude.{◌≡◌, ◌≤◌, length, map, IfOk, All};
ghost use Rattle.kat_expr.specs.Terms.{term_of};
ghost use Rattle.kat_grammar.specs.Lines.{IsElement};
ghost use Rattle.kat_grammar.specs.declared.phrases.RankPart.{RankPart};
ghost use Rattle.kat_type.specs.Limits.{field_limit, param_limit};
ghost use Rattle.kat_type.specs.Types.{assigned_by, operation_form, query_form, type_form};
ghost use Rattle.kat_judging.specs.Faults.{scope_of};
ghost use Rattle.kat_type_file.specs.Small.{IsSmallOperation, IsSmallQuery};
ghost use Rattle.kat_type_file.specs.Typing.{assigned_in, field_in, operation_in, param_in, query_in, rank_in, target_in, type_in};

use crate::expressions::{constant_value, expression, place_of};
use kat_expr::Expr;
use kat_grammar::{
    Act, Assignment, Kept, Parameter, RankElement, RankPart, State, Target, TypeText,
};
use kat_num::Items;
use kat_type::{Assign, Field, Operation, Param, Query, Rank, SeqType};
use std::alloc::{AllocError, Global};

/// A field of the type.
fn field(state: State) -> Field
    ensures { result ≡ field_in state }
{
    let name = state.name.code;
    let start = constant_value(state.start);
    match state.kept {
        Kept::One { sort, .. } => Field::Plain { name, sort, start },
        Kept::Each { key, sort, .. } => Field::Keyed {
            name,
            key,
            sort,
            start,
        },
    }
}

/// The fields of the type.
fn fields(alloc: Global, states: &[State]) -> Result<Vec<Field>, AllocError>
    ensures { IfOk result (λ fields. fields.items ≡ map field_in states.now) }
{
    let mut fields = Vec::new(alloc);
    for state in states {
        fields.push(field(*state))?;
    }
    Ok(fields)
}

/// The parameters of an item.
fn params(alloc: Global, parameters: &[Parameter]) -> Result<Vec<Param>, AllocError>
    ensures { IfOk result (λ params. params.items ≡ map param_in parameters.now) }
{
    let mut params = Vec::new(alloc);
    for parameter in parameters {
        params.push(Param {
            name: parameter.name.code,
            sort: parameter.sort,
        })?;
    }
    Ok(params)
}

/// An element of a rank.
fn rank(states: &[State], params: &[Parameter], part: RankPart) -> Rank
    requires params { length params.now ≤ param_limit }
    requires digit { IsElement part.element }
    ensures { result ≡ rank_in (scope_of states.now params.now) part }
{
    let _states = states;
    match part.element {
        RankElement::Digit { digit, .. } => Rank::Digit(digit as u8),
        RankElement::Time { .. } => Rank::Time,
        RankElement::Replica { .. } => Rank::Replica,
        RankElement::Parameter(word) => Rank::Arg(place_of(params, word.code)),
    }
}

/// The rank of an operation.
fn ranks(
    alloc: Global,
    states: &[State],
    params: &[Parameter],
    parts: &[RankPart],
) -> Result<Vec<Rank>, AllocError>
    requires params { length params.now ≤ param_limit }
    requires digits { All (λ (part : RankPart). IsElement part.element) parts.now }
    ensures { IfOk result (λ ranks. ranks.items ≡ map (rank_in (scope_of states.now params.now)) parts.now) }
{
    let mut ranks = Vec::new(alloc);
    for part in parts {
        ranks.push(rank(states, params, *part))?;
    }
    Ok(ranks)
}

/// What an assignment assigns.
fn assign(
    alloc: Global,
    states: &[State],
    params: &[Parameter],
    assignment: &Assignment,
) -> Result<Assign, AllocError>
    requires fields { length states.now ≤ field_limit }
    requires params { length params.now ≤ param_limit }
    ensures { IfOk result (λ assign. assigned_by assign ≡ assigned_in (scope_of states.now params.now) assignment.now) }
{
    match &assignment.act {
        Act::Set { target, right, .. } => {
            let right = expression(alloc, states, params, right)?;
            Ok(assigned(states, params, *target, right))
        }
        Act::Clear { table, .. } => Ok(Assign::Clear {
            field: place_of(states, table.code),
        }),
    }
}

/// A right side with what it is assigned to.
fn assigned(states: &[State], params: &[Parameter], target: Target, right: Expr) -> Assign
    requires fields { length states.now ≤ field_limit }
    requires params { length params.now ≤ param_limit }
    ensures { assigned_by result ≡ target_in (scope_of states.now params.now) target (term_of right) }
{
    match target {
        Target::Field(word) => Assign::Plain {
            field: place_of(states, word.code),
            right,
        },
        Target::Entry { table, key, .. } => Assign::Keyed {
            field: place_of(states, table.code),
            key: place_of(params, key.code),
            right,
        },
    }
}

/// What an operation assigns.
fn assigns(
    alloc: Global,
    states: &[State],
    params: &[Parameter],
    assignments: &[Assignment],
) -> Result<Vec<Assign>, AllocError>
    requires fields { length states.now ≤ field_limit }
    requires params { length params.now ≤ param_limit }
    ensures { IfOk result (λ assigns. map assigned_by assigns.items ≡ map (assigned_in (scope_of states.now params.now)) assignments.now) }
{
    let mut assigns = Vec::new(alloc);
    for assignment in assignments {
        assigns.push(assign(alloc, states, params, assignment)?)?;
    }
    Ok(assigns)
}

/// An operation of the type.
fn operation(
    alloc: Global,
    states: &[State],
    written: &kat_grammar::Operation,
) -> Result<Operation, AllocError>
    requires fields { length states.now ≤ field_limit }
    requires small { IsSmallOperation written.now }
    ensures { IfOk result (λ operation. operation_form operation ≡ operation_in states.now written.now) }
{
    let parameters = written.params.as_slice();
    let ranks = ranks(alloc, states, parameters, written.rank.as_slice())?;
    let assigns = assigns(alloc, states, parameters, written.assignments.as_slice())?;
    Ok(Operation {
        name: written.name.code,
        params: Items::from_vec(params(alloc, parameters)?),
        ranks: Items::from_vec(ranks),
        assigns: Items::from_vec(assigns),
    })
}

/// The operations of the type.
fn operations(
    alloc: Global,
    states: &[State],
    written: &[kat_grammar::Operation],
) -> Result<Vec<Operation>, AllocError>
    requires fields { length states.now ≤ field_limit }
    requires small { All IsSmallOperation written.now }
    ensures { IfOk result (λ operations. map operation_form operations.items ≡ map (operation_in states.now) written.now) }
{
    let mut operations = Vec::new(alloc);
    for one in written {
        operations.push(operation(alloc, states, one)?)?;
    }
    Ok(operations)
}

/// A query of the type.
fn query(alloc: Global, states: &[State], written: &kat_grammar::Query) -> Result<Query, AllocError>
    requires fields { length states.now ≤ field_limit }
    requires small { IsSmallQuery written.now }
    ensures { IfOk result (λ query. query_form query ≡ query_in states.now written.now) }
{
    let parameters = written.params.as_slice();
    let right = expression(alloc, states, parameters, &written.right)?;
    Ok(Query {
        name: written.name.code,
        params: Items::from_vec(params(alloc, parameters)?),
        sort: written.sort,
        right,
    })
}

/// The queries of the type.
fn queries(
    alloc: Global,
    states: &[State],
    written: &[kat_grammar::Query],
) -> Result<Vec<Query>, AllocError>
    requires fields { length states.now ≤ field_limit }
    requires small { All IsSmallQuery written.now }
    ensures { IfOk result (λ queries. map query_form queries.items ≡ map (query_in states.now) written.now) }
{
    let mut queries = Vec::new(alloc);
    for one in written {
        queries.push(query(alloc, states, one)?)?;
    }
    Ok(queries)
}

/// The type, of phrases that break no rule.
pub(crate) fn resolved(alloc: Global, text: &TypeText) -> Result<SeqType, AllocError>
    requires fields { length text.now.states ≤ field_limit }
    requires operations { All IsSmallOperation text.now.operations }
    requires queries { All IsSmallQuery text.now.queries }
    ensures { IfOk result (λ ty. type_form ty ≡ type_in text.now) }
{
    let states = text.states.as_slice();
    let fields = fields(alloc, states)?;
    let operations = operations(alloc, states, text.operations.as_slice())?;
    let queries = queries(alloc, states, text.queries.as_slice())?;
    Ok(SeqType {
        name: text.name.code,
        fields: Items::from_vec(fields),
        ops: Items::from_vec(operations),
        queries: Items::from_vec(queries),
    })
}

//! The assignments of an operation, and queries.
ghost use Rattle.std.specs.Prelude.{◌≡◌, [], IfOk};
ghost use Rattle.kat_grammar.specs.declared.phrases.Query.{Query};
ghost use Rattle.kat_judging.specs.Faults.{act_word, assignments_faults, field_codes, first_of, query_faults, scope_of};
ghost use Rattle.kat_judging.specs.Seen.{HasCodes};

use crate::assigning::{act_word, assignment_fault};
use crate::faults::{Fault, earlier};
use crate::fields::params_fault;
use crate::judging::{asked, judge};
use kat_grammar::{Assignment, Parameter, Query, State};
use std::alloc::{AllocError, Global};
use std::collections::BTreeSet;

/// The first fault of an operation's assignments, each judged after those that come before it. The only error is out of memory.
pub fn assignments_fault(
    alloc: Global,
    states: &[State],
    params: &[Parameter],
    assignments: &[Assignment],
) -> Result<Option<Fault>, AllocError>
    ensures { IfOk result (λ fault. fault ≡ first_of (assignments_faults [] (scope_of states.now params.now) assignments.now)) }
{
    let mut before = Vec::new(alloc);
    let mut first = None;
    for assignment in assignments {
        let fault = assignment_fault(before.as_slice(), states, params, assignment);
        first = earlier(first, fault);
        before.push(act_word(&assignment.act).code)?;
    }
    Ok(first)
}

/// The first fault of a query, among its parameters' names, its sort and its right side. `names` has to be what
/// `field_names` of kat_judging gives for the states.
pub fn query_fault(
    alloc: Global,
    states: &[State],
    names: &BTreeSet<u128>,
    query: &Query,
) -> Result<Option<Fault>, AllocError>
    requires { HasCodes names.now (field_codes states.now) }
    ensures { IfOk result (λ fault. fault ≡ first_of (query_faults states.now query.now)) }
{
    let params = query.params.as_slice();
    let named = params_fault(alloc, states, names, params)?;
    let right = judge(states, params, &query.right);
    Ok(earlier(earlier(named, asked(query.sort, right)), right.fault))
}

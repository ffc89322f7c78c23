//! New nodes, and nodes after their actions.
ghost use Rattle.std.specs.Prelude.{◌≡◌, ◌<◌, ◌≤◌, IfErr, IfOk, None, OnOk};
ghost use Rattle.std.specs.List.{AllByRecursion};
ghost use Rattle.kat_design.specs.Designs.{design_form};
ghost use Rattle.kat_design.specs.Sorted.{IsWellSorted};
ghost use Rattle.kat_actions.specs.Texts.{FitsSignature};
ghost use Rattle.kat_node.specs.Nodes.{IsNode};
ghost use Rattle.kat_step.specs.Limits.{IsStepRefusal, first_refusal, refusal_of};
ghost use Rattle.kat_step.specs.Steps.{done_at, first_node, with_action, with_actions};

use crate::error::StepError;
use crate::sums::passes_limit;
use kat_actions::{Call, Verb};
use kat_design::Design;
use kat_node::{Node, nodes_go_with_designs};
use kat_num::Items;
use kat_replica::Replica;
use kat_script::TIME_LIMIT;
use kat_shape::tells_values_apart;
use kat_type::Done;
use std::alloc::{AllocError, Global};

/// The greatest sum.
pub const SUM_LIMIT: u128 = 1_000_000_000_000_000_000;

/// A node of this number that did nothing: clock 0, and the starts of the design.
pub fn new_node(alloc: Global, design: &Design, number: u32) -> Result<Node, AllocError>
    requires sorted { IsWellSorted (design_form design.now) }
    requires least { 1 ≤ number }
    requires most { number ≤ 32 }
    ensures node { IfOk result (λ node. node ≡ first_node (design_form design.now) number) }
    ensures kept { IfOk result (IsNode (design_form design.now)) }
{
    tells_values_apart();
    Ok(Node {
        number,
        replica: Replica::new(alloc, design)?,
    })
}

/// The node after these actions, in their order: each is an operation at the node's number, at one past the clock before it.
///
/// The first action that fails is refused: if its time would pass 10^9, or if it would make a sum pass 10^18.
pub fn stepped(
    alloc: Global,
    design: &Design,
    node: &Node,
    actions: &[Call],
) -> Result<Node, StepError>
    requires sorted { IsWellSorted (design_form design.now) }
    requires node { IsNode (design_form design.now) node.now }
    requires fit { AllByRecursion (FitsSignature Verb.Do design.now.sig) actions.now }
    ensures steps { IfOk result (λ after. after ≡ with_actions (design_form design.now) node.now actions.now) }
    ensures passed { OnOk result (first_refusal (design_form design.now) node.now actions.now ≡ None) }
    ensures kept { IfOk result (IsNode (design_form design.now)) }
    ensures refused { IfErr result (IsStepRefusal (first_refusal (design_form design.now) node.now actions.now)) }
{
    let mut after = copy_of(alloc, node)?;
    'actions: for action in actions {
        step(alloc, design, &mut after, action)?;
    }
    Ok(after)
}

/// An equal node.
fn copy_of(alloc: Global, node: &Node) -> Result<Node, AllocError>
    ensures { IfOk result (λ copy. copy ≡ node.now) }
{
    Ok(Node {
        number: node.number,
        replica: Replica {
            clock: node.replica.clock,
            state: node.replica.state.copy(alloc)?,
        },
    })
}

/// The operation that an action is at a replica whose clock is this.
fn done_at(alloc: Global, number: u32, clock: u64, action: &Call) -> Result<Done, AllocError>
    requires { clock < TIME_LIMIT }
    ensures { IfOk result (λ done. done ≡ done_at number clock action.now) }
{
    let args = Vec::from_slice(alloc, action.args.as_slice())?;
    Ok(Done {
        replica: number,
        time: clock + 1,
        op: action.item,
        args: Items::from_vec(args),
    })
}

/// Does one action at a node.
fn step(alloc: Global, design: &Design, node: &mut Node, action: &Call) -> Result<(), StepError>
    requires sorted { IsWellSorted (design_form design.now) }
    requires node { IsNode (design_form design.now) node.old }
    requires fits { FitsSignature Verb.Do design.now.sig action.now }
    ensures steps { OnOk result (node.new ≡ with_action (design_form design.now) node.old action.now) }
    ensures passed { OnOk result (refusal_of (design_form design.now) node.old action.now ≡ None) }
    ensures kept { OnOk result (IsNode (design_form design.now) node.new) }
    ensures refused { IfErr result (IsStepRefusal (refusal_of (design_form design.now) node.old action.now)) }
{
    if node.replica.clock >= TIME_LIMIT {
        return Err(StepError::TooLarge { line: action.line });
    }
    let done = done_at(alloc, node.number, node.replica.clock, action)?;
    let parts = node.replica.state.parts.as_slice();
    if passes_limit(design.components.as_slice(), parts, &done) {
        return Err(StepError::FullState { line: action.line });
    }
    nodes_go_with_designs();
    tells_values_apart();
    node.replica.apply(alloc, design, &done)?;
    Ok(())
}

//! What a node of a design does, in place.
ghost use Rattle.std.specs.Prelude.{◌≡◌, ◌<◌, ◌↔◌, false, IfErr, IfOk, OnErr, OnOk};
ghost use Rattle.kat_actions.specs.Texts.{FitsSignature};
ghost use Rattle.kat_design.specs.Answers.{answer_of};
ghost use Rattle.kat_design.specs.Designs.{design_form};
ghost use Rattle.kat_design.specs.Sorted.{IsWellSorted};
ghost use Rattle.kat_node.specs.Nodes.{IsNode};
ghost use Rattle.kat_node.specs.Packets.{parts_of, with_packet};
ghost use Rattle.kat_num.specs.Values.{value_text};
ghost use Rattle.kat_step.specs.Limits.{IsStepRefusal, refusal_of};
ghost use Rattle.kat_step.specs.Steps.{done_at, with_action};

use crate::absorbing::is_absorbed;
use kat_actions::{Call, Verb};
use kat_design::{Design, states_go_together};
use kat_node::{Node, nodes_go_with_designs, packets_leave_nodes};
use kat_num::{Value, print};
use kat_script::TIME_LIMIT;
use kat_shape::tells_values_apart;
use kat_step::{StepError, passes_limit};
use kat_type::Done;
use std::alloc::{AllocError, Global};

/// Does an operation at a node, at one past its clock. It is refused as `stepped` of kat_step refuses it; after an error the node
/// is as it was.
pub(crate) fn act_on(
    alloc: Global,
    design: &Design,
    node: &mut Node,
    call: Call,
) -> Result<(), StepError>
    requires sorted { IsWellSorted (design_form design.now) }
    requires node { IsNode (design_form design.now) node.old }
    requires fits { FitsSignature Verb.Do design.now.sig call }
    ensures steps { OnOk result (node.new ≡ with_action (design_form design.now) node.old call) }
    ensures kept { OnOk result (IsNode (design_form design.now) node.new) }
    ensures refused { IfErr result (IsStepRefusal (refusal_of (design_form design.now) node.old call)) }
    ensures err { OnErr result (node.new ≡ node.old) }
{
    let line = call.line;
    if node.replica.clock >= TIME_LIMIT {
        return Err(StepError::TooLarge { line });
    }
    let done = done_at(node.number, node.replica.clock, call);
    let parts = node.replica.state.parts.as_slice();
    if passes_limit(design.components.as_slice(), parts, &done) {
        return Err(StepError::FullState { line });
    }
    nodes_go_with_designs();
    tells_values_apart();
    node.replica.apply(alloc, design, &done)?;
    Ok(())
}

/// The operation that a call is at a replica whose clock is this.
fn done_at(number: u32, clock: u64, call: Call) -> Done
    requires { clock < TIME_LIMIT }
    ensures { result ≡ done_at number clock call }
{
    Done {
        replica: number,
        time: clock + 1,
        op: call.item,
        args: call.args,
    }
}

/// Takes another node's state in, and says whether that changed anything. After an error the node is as it was.
pub(crate) fn take_in(
    alloc: Global,
    design: &Design,
    node: &mut Node,
    packet: &Node,
) -> Result<bool, AllocError>
    requires sorted { IsWellSorted (design_form design.now) }
    requires node { IsNode (design_form design.now) node.old }
    requires packet { IsNode (design_form design.now) packet.now }
    ensures taken { OnOk result (node.new ≡ with_packet node.old packet.now) }
    ensures kept { OnOk result (IsNode (design_form design.now) node.new) }
    ensures told { IfOk result (λ changed. (changed ≡ false) ↔ (node.new ≡ node.old)) }
    ensures err { OnErr result (node.new ≡ node.old) }
{
    packets_leave_nodes();
    states_go_together();
    if is_absorbed(node, packet) {
        return Ok(false);
    }
    node.replica
        .take_in(alloc, packet.replica.clock, &packet.replica.state)?;
    Ok(true)
}

/// The text of the answer to a query in the state of a node.
pub(crate) fn answer_text(
    alloc: Global,
    design: &Design,
    node: &Node,
    call: &Call,
) -> Result<Vec<u8>, AllocError>
    requires sorted { IsWellSorted (design_form design.now) }
    requires node { IsNode (design_form design.now) node.now }
    requires fits { FitsSignature Verb.Ask design.now.sig call.now }
    ensures { IfOk result (λ text. text.items
        ≡ value_text (answer_of (design_form design.now) (parts_of node.now) call.now.item call.now.args)) }
{
    let answer = answer_value(design, node, call);
    let mut text = Vec::new(alloc);
    print(alloc, &answer, &mut text)?;
    Ok(text)
}

/// The answer to a query in the state of a node.
pub(crate) fn answer_value(design: &Design, node: &Node, call: &Call) -> Value
    requires sorted { IsWellSorted (design_form design.now) }
    requires node { IsNode (design_form design.now) node.now }
    requires fits { FitsSignature Verb.Ask design.now.sig call.now }
    ensures { result ≡ answer_of (design_form design.now) (parts_of node.now) call.now.item call.now.args }
{
    nodes_go_with_designs();
    node.replica.ask(design, call.item, call.args.as_slice())
}

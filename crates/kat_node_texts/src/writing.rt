//! What is written: the state file of a new replica, that of a replica after a step, and the lines of answers.
ghost use Rattle.std.specs.Prelude.{◌≡◌, ◌≤◌, ◌++◌, ◌∷◌, [], IfErr, IfOk, None, OnOk};
ghost use Rattle.std.specs.List.{AllByRecursion};
ghost use Rattle.kat_actions.specs.Texts.{FitsSignature};
ghost use Rattle.kat_design.specs.Designs.{design_form};
ghost use Rattle.kat_design.specs.Sorted.{IsWellSorted};
ghost use Rattle.kat_node.specs.Nodes.{IsNode};
ghost use Rattle.kat_node.specs.Packets.{with_packets};
ghost use Rattle.kat_node.specs.StateData.{node_text};
ghost use Rattle.kat_step.specs.Limits.{IsStepRefusal, first_refusal};
ghost use Rattle.kat_step.specs.Steps.{first_node};
ghost use Rattle.kat_node_texts.specs.Answered.{answers_text};
ghost use Rattle.kat_node_texts.specs.Files.{AreOf, node_behind};

use crate::files::StepFiles;
use kat_actions::{Call, Verb};
use kat_design::Design;
use kat_node::{Node, nodes_go_with_designs, packets_leave_nodes, united, write_node};
use kat_step::{StepError, new_node, stepped};
use kat_world::push_ask;
use std::alloc::{AllocError, Global};

/// The state file of a new replica of this number.
pub fn new_text(alloc: Global, design: &Design, number: u32) -> Result<Vec<u8>, AllocError>
    requires sorted { IsWellSorted (design_form design.now) }
    requires least { 1 ≤ number }
    requires most { number ≤ 32 }
    ensures { IfOk result (λ text. text.items ≡ node_text (first_node (design_form design.now) number)) }
{
    nodes_go_with_designs();
    let node = new_node(alloc, design, number)?;
    write_node(alloc, &node)
}

/// The state file of a replica after a step: all packets are delivered, in their order, and then the actions are done. The
/// first action that can't be done is refused.
pub fn step_text(alloc: Global, design: &Design, files: StepFiles) -> Result<Vec<u8>, StepError>
    requires sorted { IsWellSorted (design_form design.now) }
    requires of { AreOf (design_form design.now) files }
    ensures text { IfOk result (λ text. text.items ≡ node_text (node_behind (design_form design.now) files)) }
    ensures passed { OnOk result (first_refusal (design_form design.now) (with_packets files.node files.packets) files.actions ≡ None) }
    ensures refused { IfErr result
        (IsStepRefusal (first_refusal (design_form design.now) (with_packets files.node files.packets) files.actions)) }
{
    packets_leave_nodes();
    nodes_go_with_designs();
    let node = united(alloc, files.node, files.packets.as_slice())?;
    let after = stepped(alloc, design, &node, files.actions.as_slice())?;
    let text = write_node(alloc, &after)?;
    Ok(text)
}

/// The lines of answers to questions, in their order, in the state of a node.
pub fn answers_text(
    alloc: Global,
    design: &Design,
    node: &Node,
    questions: &[Call],
) -> Result<Vec<u8>, AllocError>
    requires sorted { IsWellSorted (design_form design.now) }
    requires node { IsNode (design_form design.now) node.now }
    requires fit { AllByRecursion (FitsSignature Verb.Ask design.now.sig) questions.now }
    ensures { IfOk result (λ text. text.items ≡ answers_text (design_form design.now) node.now questions.now) }
{
    let mut text = Vec::new(alloc);
    'questions: for question in questions {
        push_answer(alloc, design, node, question, &mut text)?;
    }
    Ok(text)
}

/// Appends the line of the answer to a question.
fn push_answer(
    alloc: Global,
    design: &Design,
    node: &Node,
    question: &Call,
    into: &mut Vec<u8>,
) -> Result<(), AllocError>
    requires sorted { IsWellSorted (design_form design.now) }
    requires node { IsNode (design_form design.now) node.now }
    requires fits { FitsSignature Verb.Ask design.now.sig question.now }
    ensures { OnOk result (into.new.items ≡ into.old.items ++ answers_text (design_form design.now) node.now (question.now ∷ [])) }
{
    nodes_go_with_designs();
    let args = question.args.as_slice();
    let answer = node.replica.ask(design, question.item, args);
    push_ask(
        alloc,
        &design.sig,
        node.number,
        question.item,
        args,
        &answer,
        into,
    )
}

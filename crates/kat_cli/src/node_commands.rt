//! `node-new`, `node-step` and `node-ask`: a replica of a design, its state in a file.
ghost use Rattle.std.specs.Prelude.{◌≡◌, ℕ, ◌≤◌, List, ◌∷◌, [], IfErr, OnOk, length};
ghost use Rattle.std.specs.List.{AllByRecursion};
ghost use Rattle.kat_actions.specs.Texts.{FitsSignature};
ghost use Rattle.kat_check.specs.Acceptance.{IsAcceptedFile};
ghost use Rattle.kat_design.specs.Designs.{design_form};
ghost use Rattle.kat_design.specs.Sorted.{IsWellSorted};
ghost use Rattle.kat_node.specs.Nodes.{IsNode};
ghost use Rattle.kat_node_texts.specs.Answered.{answers_text};
ghost use Rattle.kat_script.specs.Rules.{HasFewCalls};
ghost use Rattle.kat_type.specs.Signatures.{signature_of};
ghost use Rattle.kat_type.specs.Types.{type_form};
ghost use Rattle.kat_wire.specs.FileForms.{file_form};
ghost use Rattle.kat_cli.specs.CheckCommand.{IsFileFor};
ghost use Rattle.kat_cli.specs.Ending.{FailsProof, Judges, Prints, contents};
ghost use Rattle.kat_words.specs.Words.{IsNodeInRange};

use crate::commands::{
    refused_design, refused_node, refused_script, refused_step, refused_step_file,
};
use crate::printing::print;
use crate::status::Status;
use crate::typed_files::read_typed_file;
use kat_actions::{Call, Verb, calls_fit_signatures, read_questions};
use kat_check::{Checked, check};
use kat_design::Design;
use kat_io::Sink;
use kat_node::{Node, read_node};
use kat_node_texts::{
    FileRefused, PACKETS_LIMIT, answers_text, new_text, read_step, step_text, steps_are_of_designs,
};
use kat_type::SeqType;
use kat_wire::{DesignFile, read_file};
use kat_words::{Command, NodeOptions};
use std::alloc::Global;

/// Judges the design, and writes the state file of a new replica.
pub(crate) fn judge_node_new<K: Sink>(
    alloc: Global,
    options: NodeOptions,
    design: &[u8],
    out: &mut K,
) -> Status
    requires { IsNodeInRange options }
    ensures judged { Judges (Command.NodeNew options) (design.now ∷ []) (record {
      written = K.written out.old;
      written_after = K.written out.new;
      faults = K.faults out.old;
      faults_after = K.faults out.new;
    }) result }
    ensures later { K.faults out.old ≤ K.faults out.new }
{
    let file = match read_file(alloc, design) {
        Ok(file) => file,
        Err(error) => return refused_design(alloc, 0, error),
    };
    match new_text(alloc, &file.design, options.number) {
        Ok(text) => print(alloc, &text, Status::Done, out),
        Err(_) => Status::Memory,
    }
}

/// Judges the design, the state, the actions and the packets in their order; takes all packets in, does the actions, and only
/// then writes the state file.
pub(crate) fn judge_node_step<K: Sink>(
    alloc: Global,
    design: &[u8],
    state: &[u8],
    actions: &[u8],
    packets: &[Vec<u8>],
    out: &mut K,
) -> Status
    requires { length packets.now ≤ PACKETS_LIMIT }
    ensures judged { Judges Command.NodeStep (design.now ∷ state.now ∷ actions.now ∷ contents packets.now) (record {
      written = K.written out.old;
      written_after = K.written out.new;
      faults = K.faults out.old;
      faults_after = K.faults out.new;
    }) result }
    ensures later { K.faults out.old ≤ K.faults out.new }
{
    let file = match read_file(alloc, design) {
        Ok(file) => file,
        Err(error) => return refused_design(alloc, 0, error),
    };
    let files = match read_step(alloc, &file.design, state, actions, packets) {
        Ok(files) => files,
        Err(FileRefused { file, error }) => {
            return refused_step_file(alloc, file.saturating_add(1), error);
        }
    };
    steps_are_of_designs();
    match step_text(alloc, &file.design, files) {
        Ok(text) => print(alloc, &text, Status::Done, out),
        Err(error) => refused_step(2, error),
    }
}

/// Judges the type, the design, which must have the type's signature, the state and the questions; checks the proof; and only
/// then answers.
pub(crate) fn judge_node_ask<K: Sink>(
    alloc: Global,
    ty: &[u8],
    design: &[u8],
    state: &[u8],
    questions: &[u8],
    out: &mut K,
) -> Status
    ensures judged { Judges Command.NodeAsk (ty.now ∷ design.now ∷ state.now ∷ questions.now ∷ []) (record {
      written = K.written out.old;
      written_after = K.written out.new;
      faults = K.faults out.old;
      faults_after = K.faults out.new;
    }) result }
    ensures later { K.faults out.old ≤ K.faults out.new }
{
    let read = match read_typed_file(alloc, ty, design) {
        Ok(read) => read,
        Err(status) => return status,
    };
    ask_typed(alloc, &read.ty, &read.file, state, questions, out)
}

/// Answers questions that are judged good in a state that is judged good too, if the proof of the file of the type's signature is accepted.
fn ask_typed<K: Sink>(
    alloc: Global,
    ty: &SeqType,
    file: &DesignFile,
    state: &[u8],
    questions: &[u8],
    out: &mut K,
) -> Status
    requires agree { signature_of (type_form ty.now) ≡ file.now.design.sig }
    requires few { HasFewCalls file.now.design.sig }
    requires sorted { IsWellSorted (design_form file.now.design) }
    ensures judged { (first second : List ℕ) → IsFileFor first second (type_form ty.now) (file_form file.now)
        → Judges Command.NodeAsk (first ∷ second ∷ state.now ∷ questions.now ∷ []) (record {
          written = K.written out.old;
          written_after = K.written out.new;
          faults = K.faults out.old;
          faults_after = K.faults out.new;
        }) result }
    ensures later { K.faults out.old ≤ K.faults out.new }
{
    let node = match read_node(alloc, state, &file.design) {
        Ok(node) => node,
        Err(error) => return refused_node(alloc, 2, error),
    };
    let questions = match read_questions(alloc, questions, &file.design.sig) {
        Ok(questions) => questions,
        Err(error) => return refused_script(3, error),
    };
    calls_fit_signatures();
    match check_proof(alloc, ty, file) {
        Ok(()) => answer(alloc, &file.design, &node, &questions, out),
        Err(status) => status,
    }
}

/// Writes the answers of the design in the state of a replica, and says how that ended.
fn answer<K: Sink>(
    alloc: Global,
    design: &Design,
    node: &Node,
    questions: &[Call],
    out: &mut K,
) -> Status
    requires sorted { IsWellSorted (design_form design.now) }
    requires node { IsNode (design_form design.now) node.now }
    requires fit { AllByRecursion (FitsSignature Verb.Ask design.now.sig) questions.now }
    ensures prints { Prints (answers_text (design_form design.now) node.now questions.now) Status.Done (record {
      written = K.written out.old;
      written_after = K.written out.new;
      faults = K.faults out.old;
      faults_after = K.faults out.new;
    }) result }
    ensures later { K.faults out.old ≤ K.faults out.new }
{
    match answers_text(alloc, design, node, questions) {
        Ok(text) => print(alloc, &text, Status::Done, out),
        Err(_) => Status::Memory,
    }
}

/// Checks the proof of a design file of the type's signature. If it isn't accepted, or memory runs out, it says how the call
/// ends.
fn check_proof(alloc: Global, ty: &SeqType, file: &DesignFile) -> Result<(), Status>
    requires { signature_of (type_form ty.now) ≡ file.now.design.sig }
    ensures accepted { OnOk result (IsAcceptedFile (type_form ty.now) (file_form file.now)) }
    ensures refused { IfErr result (FailsProof (type_form ty.now) (file_form file.now)) }
{
    match check(alloc, ty, file) {
        Ok(Checked::Accepted) => Ok(()),
        Ok(Checked::Refused { condition, line }) => Err(Status::ProofRefused { condition, line }),
        Err(_) => Err(Status::Memory),
    }
}

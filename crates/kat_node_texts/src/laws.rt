//! What holds of the files of a step, and of answers: each law is a call that does nothing, whose clause says it.
ghost use Rattle.std.specs.Prelude.{◌≡◌, ◌⊎◌, ℕ, List};
ghost use Rattle.std.specs.List.{AllByRecursion};
ghost use Rattle.kat_actions.specs.Texts.{FitsSignature};
ghost use Rattle.kat_actions.specs.declared.calls.Call.{Call};
ghost use Rattle.kat_design.specs.Denotations.{denotation_of};
ghost use Rattle.kat_design.specs.Designs.{DesignForm};
ghost use Rattle.kat_design.specs.Sorted.{IsWellSorted};
ghost use Rattle.kat_node.specs.Packets.{parts_of};
ghost use Rattle.kat_node.specs.declared.nodes.Node as nodes;
ghost use Rattle.kat_step.specs.Runs.{IsLegal};
ghost use Rattle.kat_type.specs.Signatures.{signature_of};
ghost use Rattle.kat_type.specs.Types.{TypeForm};
ghost use Rattle.kat_type.specs.declared.done.Done.{Done};
ghost use Rattle.kat_world.specs.AsType.{AnswersAsType};
ghost use Rattle.kat_node_texts.specs.Answered.{AnswersEach, answers_text};
ghost use Rattle.kat_node_texts.specs.Files.{AreOf, AreStepFiles, IsRefusedAt, Passes};
ghost use Rattle.kat_node_texts.specs.declared.files.FileError.{FileError};
ghost use Rattle.kat_node_texts.specs.declared.files.StepFiles.{StepFiles};

use kat_actions::Verb;

/// The files of a step say one thing at most, and a file is refused in one way at most, and never if it passes.
pub fn at_most_one_judgement()
    ensures files { (d : DesignForm) (state actions : List ℕ) (packets : List (List ℕ)) (some other : StepFiles)
        → AreStepFiles d state actions packets some
        → AreStepFiles d state actions packets other → some ≡ other }
    ensures refusal { (d : DesignForm) (place : ℕ) (text : List ℕ) (some other : FileError) → IsRefusedAt d place text some
        → IsRefusedAt d place text other → some ≡ other }
    ensures apart { (d : DesignForm) (place : ℕ) (text : List ℕ) (error : FileError) → Passes d place text → IsRefusedAt d place text error
        → ⊥ }
{}

/// Each file after a well-sorted design passes at its place, or is refused.
pub fn every_file_is_judged()
    ensures { (d : DesignForm) (place : ℕ) (text : List ℕ) → IsWellSorted d → Passes d place text
        ⊎ ((error : FileError) × IsRefusedAt d place text error) }
{}

/// What the files of a step say is of their design.
pub fn steps_are_of_designs()
    ensures { (d : DesignForm) (state actions : List ℕ) (packets : List (List ℕ)) (files : StepFiles)
        → AreStepFiles d state actions packets files → AreOf d files }
{}

/// If a design answers as a type does, and the state of a node is what some legal operations give: the lines of answers are
/// those of the type after these operations, in every order of them that respects the ranks.
pub fn answers_are_the_types()
    ensures { (ty : TypeForm) (d : DesignForm) (ones : List Done) (node : nodes.Node) (questions : List Call) → signature_of ty ≡ d.sig
        → AnswersAsType ty d → IsLegal d.sig ones
        → parts_of node ≡ denotation_of d ones → AllByRecursion (FitsSignature Verb.Ask d.sig) questions
        → AnswersEach ty ones node.number questions (answers_text d node questions) }
{}

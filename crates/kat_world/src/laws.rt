//! Laws of what is printed.
ghost use Rattle.std.specs.Prelude.{◌≡◌, ℕ, List};
ghost use Rattle.kat_design.specs.Designs.{DesignForm};
ghost use Rattle.kat_design.specs.Sorted.{IsWellSorted};
ghost use Rattle.kat_script.specs.Judged.{AreJudged, IsJudged};
ghost use Rattle.kat_script.specs.World.{first_world, replica_at, world_after};
ghost use Rattle.kat_script.specs.declared.script.Line.{Line};
ghost use Rattle.kat_script.specs.declared.script.Script.{Script};
ghost use Rattle.kat_type.specs.Lists.{HaveSame, IsOnce};
ghost use Rattle.kat_type.specs.Signatures.{signature_of};
ghost use Rattle.kat_type.specs.Types.{TypeForm};
ghost use Rattle.kat_type.specs.declared.done.Done.{Done};
ghost use Rattle.kat_world.specs.Alike.{PrintAlike};
ghost use Rattle.kat_world.specs.AsType.{AnswersAsType, ShowsNothing};
ghost use Rattle.kat_world.specs.Answers.{AnswersSequentially, nothing_shown};
ghost use Rattle.kat_world.specs.Fitting.{AsksFit, OperationsFit};
ghost use Rattle.kat_world.specs.Lines.{lines_of, shown_by};
ghost use Rattle.kat_world.specs.Model.{model_lines};
ghost use Rattle.kat_world.specs.Replies.{answers_of, model_answers};

/// If each ask of a script has an answer that the sequential type gives in every order that respects the ranks, the
/// lines with these answers are those that `model` writes. So of a judged script there is at most one such text.
pub fn sequential_answers_are_the_models()
    ensures { (ty : TypeForm) (script : Script) (text : List ℕ) → IsJudged (signature_of ty) script
        → AnswersSequentially ty nothing_shown script text
        → text ≡ model_lines ty script }
{}

/// The lines of a design that answers as a type does, on every judged script: each ask has the answer of the type in every
/// order that respects the ranks, of the operations that its replica absorbed; each show the clock and the state. Without
/// a show they are the lines of `model`.
pub fn designs_answer_sequentially()
    ensures answers { (ty : TypeForm) (d : DesignForm) (script : Script) → signature_of ty ≡ d.sig → AnswersAsType ty d
        → IsJudged (signature_of ty) script
        → AnswersSequentially ty (shown_by d) script (lines_of d script) }
    ensures model { (ty : TypeForm) (d : DesignForm) (script : Script) → signature_of ty ≡ d.sig → AnswersAsType ty d
        → IsJudged (signature_of ty) script → ShowsNothing script → lines_of d script ≡ model_lines ty script }
{}

/// The answers of a design that answers as a type does, on every judged script, are those of the type, of the operations that are
/// absorbed there in the canonical order.
pub fn designs_reply_as_types()
    ensures { (ty : TypeForm) (d : DesignForm) (script : Script) → AnswersAsType ty d → IsJudged (signature_of ty) script
        → answers_of d script ≡ model_answers ty script }
{}

/// Each operation that a judged script does, and each query that it asks, is one of the type's, with arguments of their
/// sorts.
pub fn judged_scripts_fit_types()
    ensures operations { OperationsFit }
    ensures asks { AsksFit }
{}

/// Convergence: replicas that absorbed the same operations print the same answers and the same state, in whatever order the
/// operations came, in one world of a judged script or in two.
pub fn same_operations_same_lines()
    ensures operations { (d : DesignForm) (some others : List Done) → IsWellSorted d → IsOnce some → IsOnce others → HaveSame some others
        → PrintAlike d some others }
    ensures replicas { (d : DesignForm) (n m : ℕ) (lines others : List Line) (r s : ℕ) → IsWellSorted d
        → AreJudged d.sig (first_world n) lines → AreJudged d.sig (first_world m) others
        → HaveSame (replica_at (world_after (first_world n) lines) r).absorbed (replica_at (world_after (first_world m) others) s).absorbed
        → PrintAlike d (replica_at (world_after (first_world n) lines) r).absorbed
        (replica_at (world_after (first_world m) others) s).absorbed }
{}

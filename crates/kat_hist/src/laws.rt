//! What holds of the scripts of histories: each law is a call that does nothing, whose clause says it.
ghost use Rattle.std.specs.Prelude.{ℕ, List};
ghost use Rattle.kat_histories.specs.Laws.{IsHistory};
ghost use Rattle.kat_histories.specs.declared.histories.History.{History};
ghost use Rattle.kat_hist.specs.Scripts.{script_text};
ghost use Rattle.kat_hist.specs.Words.{HasWords};
ghost use Rattle.kat_script.specs.Script.{IsScriptText};
ghost use Rattle.kat_script.specs.declared.script.Script.{Script};
ghost use Rattle.kat_type.specs.Signatures.{IsSmall, signature_of};
ghost use Rattle.kat_type_file.specs.TypeFiles.{IsTypeFile};
ghost use Rattle.kat_type.specs.Types.{TypeForm};
ghost use Rattle.kat_type.specs.declared.signatures.Signature.{Signature};

/// Operations and queries of a type that a file says are named by words that aren't reserved.
pub fn files_have_words()
    ensures { (text : List ℕ) (ty : TypeForm) → IsTypeFile text ty → HasWords (signature_of ty) }
{}

/// If operations and queries are named so, the script that shows a history is judged good.
pub fn script_texts_are_judged()
    ensures { (sig : Signature) (history : History) → HasWords sig → IsSmall sig → IsHistory sig history
        → (script : Script) × IsScriptText sig (script_text sig history) script }
{}

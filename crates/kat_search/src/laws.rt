//! What holds of all searches: each law is a call that does nothing, whose clause says it.
ghost use Rattle.std.specs.Prelude.{ℕ, List};
ghost use Rattle.kat_type.specs.Signatures.{signature_of};
ghost use Rattle.kat_type_file.specs.TypeFiles.{IsTypeFile};
ghost use Rattle.kat_type.specs.Types.{TypeForm};
ghost use Rattle.kat_design_json.specs.Signatures.{IsSignature};
ghost use Rattle.kat_search.specs.Laws.{IsNoneExactly, NoneMeansRefuted, RefutedMeansNone};

use kat_hist::files_have_words;

/// The signature of a type that a file says may be in a design file: its names are words, all different.
pub fn files_have_signatures()
    ensures { (text : List ℕ) (ty : TypeForm) → IsTypeFile text ty → IsSignature (signature_of ty) }
{
    files_have_words();
}

/// None is answered if and only if the listing has at most as many designs as were asked, and each of them differs on a history.
pub fn none_is_answered_exactly()
    ensures refuted { NoneMeansRefuted }
    ensures none { RefutedMeansNone }
    ensures exactly { IsNoneExactly }
{}

//! What holds of the answers of a cart.
ghost use Rattle.std.specs.Prelude.{◌^◌, ◌≤◌, All, length};
ghost use Rattle.kat_expr.specs.Limits.{IsAtMost};
ghost use Rattle.kat_sample.specs.Carts.{cart};
ghost use Rattle.kat_script.specs.Judged.{IsJudged};
ghost use Rattle.kat_script.specs.declared.script.Script.{Script};
ghost use Rattle.kat_type.specs.Signatures.{signature_of};
ghost use Rattle.kat_world.specs.Replies.{model_answers};

/// The answers of a cart on a judged script aren't too many, and none is too great for [`summary`](crate::summary).
pub fn cart_answers_are_small()
    ensures small { (script : Script) → IsJudged (signature_of cart) script → All (IsAtMost (2 ^ 100)) (model_answers cart script) }
    ensures few { (script : Script) → IsJudged (signature_of cart) script → length (model_answers cart script) ≤ 100_000 }
{}

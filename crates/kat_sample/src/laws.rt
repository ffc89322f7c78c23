//! What holds of the cart and of every script for it.
ghost use Rattle.std.specs.Prelude.{◌≡◌, ℕ, ◌≤◌};
ghost use Rattle.kat_sample.specs.Carts.{cart};
ghost use Rattle.kat_sample.specs.Scripts.{sample_script};
ghost use Rattle.kat_sample.specs.declared.scripts.TheConstants.{SAMPLE_LIMIT};
ghost use Rattle.kat_script.specs.Judged.{IsJudged};
ghost use Rattle.kat_type.specs.Alike.{HasAlikeRanks};
ghost use Rattle.kat_type.specs.Fits.{IsWellSorted};
ghost use Rattle.kat_type.specs.Signatures.{signature_of};
ghost use Rattle.kat_type.specs.Within.{IsWithinLimits};

/// The cart is such a type as type files say: its sorts fit, it is within the limits, and its ranks are alike.
pub fn carts_are_types()
    ensures sorted { IsWellSorted cart }
    ensures limits { IsWithinLimits cart }
    ensures ranks { HasAlikeRanks cart }
{}

/// A script of drawn commands is judged good for the cart's signature.
pub fn samples_are_judged()
    ensures { (seed lines : ℕ) → lines ≤ SAMPLE_LIMIT → IsJudged (signature_of cart) (sample_script seed lines) }
{}

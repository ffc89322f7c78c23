//! What holds of searches for a design of the cart.
ghost use Rattle.std.specs.Prelude.{◌≡◌, ℕ, ◌≤◌, List, true};
ghost use Rattle.kat_sample.specs.Carts.{cart};
ghost use Rattle.kat_search.specs.Verdicts.{HasNone};
ghost use Rattle.kat_search.specs.declared.options.Options.{Options};

use kat_hist::{histories_are_complete, histories_fit};

/// A search for a design of the cart doesn't answer that there is none, if it is asked for designs of size 4 at least and for
/// sums by key among others.
pub fn carts_have_designs()
    ensures { (options : Options) (report : List ℕ) → 4 ≤ options.size → options.kinds.tallies ≡ true → HasNone cart options report → ⊥ }
{
    histories_are_complete();
    histories_fit();
}

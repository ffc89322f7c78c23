//! What holds of all histories: each law is a call that does nothing, whose clause says it.
ghost use Rattle.std.specs.Prelude.{◌≡◌, ◌↔◌, ℕ, Some, slice_get};
ghost use Rattle.std.specs.List.{AllPairs};
ghost use Rattle.std.specs.declared.cmp.Ordering.TheVariants.{Less};
ghost use Rattle.kat_histories.specs.Histories.{FitsHistory, all_histories, histories};
ghost use Rattle.kat_histories.specs.Laws.{IsHistory, history_cmp};
ghost use Rattle.kat_histories.specs.Pools.{calls_of};
ghost use Rattle.kat_histories.specs.declared.histories.History.{History};
ghost use Rattle.kat_type.specs.Lists.{Has};
ghost use Rattle.kat_type.specs.declared.signatures.Signature.{Signature};

/// All histories of a signature are exactly those: none to three operations with arguments of the pools, at ascending stamps.
pub fn histories_are_complete()
    ensures { (sig : Signature) (history : History) → Has (all_histories (calls_of sig)) history ↔ IsHistory sig history }
{}

/// They ascend: by the number of operations, then by stamps, then by operations and arguments. So each is there once.
pub fn histories_ascend()
    ensures { (sig : Signature) → AllPairs (λ some other. history_cmp some other ≡ Less) (all_histories (calls_of sig)) }
{}

/// The histories of a signature can be asked of its designs.
pub fn histories_fit()
    ensures { (sig : Signature) (i : ℕ) (history : History) → slice_get (histories sig) i ≡ Some history → FitsHistory sig history }
{}

//! What holds of all expressions.
ghost use Rattle.std.specs.Prelude.{◌≡◌, ℕ, ◌+◌, ◌*◌, ◌≤◌, All, List, if◌then◌else◌};
ghost use Rattle.kat_num.specs.Values.{HasSort};
ghost use Rattle.kat_num.specs.declared.values.Sort.{Sort};
ghost use Rattle.kat_num.specs.declared.values.TheConstants.{NUMBER_LIMIT};
ghost use Rattle.kat_num.specs.declared.values.Value.{Value};
ghost use Rattle.kat_expr.specs.Entries.{IsKey};
ghost use Rattle.kat_expr.specs.Evaluation.{value_of};
ghost use Rattle.kat_expr.specs.Puts.{with_value};
ghost use Rattle.kat_expr.specs.Slots.{entry_at, is_same};
ghost use Rattle.kat_expr.specs.Sorts.{FitsScope, FitsSort, Scope};
ghost use Rattle.kat_expr.specs.Limits.{HasConstantsAtMost, IsAtMost, IsSlotAtMost, weight_of};
ghost use Rattle.kat_expr.specs.Terms.{Term, node_count};
ghost use Rattle.kat_expr.specs.declared.expressions.Slot.{Slot};

/// The value of a well-sorted expression, in a state and with arguments of the scope's sorts, has the
/// sort of the expression. So nothing in it counts as what it isn't.
pub fn values_have_their_sorts()
    ensures { (scope : Scope) (state : List Slot) (args : List Value) → FitsScope scope state args
        → (e : Term) (asked : Sort) → FitsSort scope e asked → HasSort asked (value_of e state args) }
{}

/// The value of an expression of at most 400 nodes that adds up at most one read is at most the greatest number
/// of the state, whatever that is, and 400 times the limit of literals and arguments.
pub fn values_grow_slowly()
    ensures { (most : ℕ) (state : List Slot) (args : List Value) (e : Term) → All (IsSlotAtMost most) state
        → All (IsAtMost NUMBER_LIMIT) args
        → HasConstantsAtMost NUMBER_LIMIT e → node_count e ≤ 400 → weight_of e ≤ 1
        → IsAtMost (most + 400 * NUMBER_LIMIT) (value_of e state args) }
{}

/// What is within a limit is within every greater one: so what keeps the limit of literals and arguments keeps
/// that of `eval`.
pub fn limits_may_grow()
    ensures values { (least most : ℕ) (value : Value) → least ≤ most → IsAtMost least value → IsAtMost most value }
    ensures slots { (least most : ℕ) (slot : Slot) → least ≤ most → IsSlotAtMost least slot → IsSlotAtMost most slot }
    ensures constants { (least most : ℕ) (e : Term) → least ≤ most → HasConstantsAtMost least e → HasConstantsAtMost most e }
{}

/// A value that is kept at a key is what is read there, and at every other key what was read before.
pub fn kept_values_are_read()
    ensures { (key value at start : Value) (entries : List (Value × Value)) → IsKey key
        → entry_at at start (with_value key value entries) ≡ (if is_same key at then value else entry_at at start entries) }
{}

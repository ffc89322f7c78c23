//! What lists of operations give, and that neither their order nor the way in which they came makes a difference: each law
//! is a call that does nothing, whose clause says it.
ghost use Rattle.std.specs.Prelude.{◌≡◌, List, [], Option, ℕ};
ghost use Rattle.std.specs.List.{AllByRecursion};
ghost use Rattle.kat_design.specs.Denotations.{denotation_of, design_meaning};
ghost use Rattle.kat_design.specs.Designs.{DesignForm};
ghost use Rattle.kat_design.specs.Effects.{cell_effects, set_effects};
ghost use Rattle.kat_design.specs.KeyedStates.{IsKeyed, IsWrapped};
ghost use Rattle.kat_design.specs.KeyedTallies.{keyed_tallies};
ghost use Rattle.kat_design.specs.Meanings.{AreEffects, Effects, Meaning, Means, all_of, are_kin, joins, tallied};
ghost use Rattle.kat_design.specs.Parts.{PartsKin, parts_joined};
ghost use Rattle.kat_design.specs.Readings.{KeyedTalliesSum, SetsHaveAdded, TablesAreCells, TalliesSum};
ghost use Rattle.kat_design.specs.Sorted.{IsWellSorted};
ghost use Rattle.kat_design.specs.Tallied.{SumsUnite, SumsWithin};
ghost use Rattle.kat_lattice.specs.Maps.{MapsKin};
ghost use Rattle.kat_lattice.specs.Sets.{SetsKin, TellsApart};
ghost use Rattle.kat_lattice.specs.Tallies.{TalliesKin, tallies_joined};
ghost use Rattle.kat_design.specs.declared.designs.Leaf.{Leaf};
ghost use Rattle.kat_design.specs.declared.states.Part.{Part};
ghost use Rattle.kat_num.specs.declared.values.Value as values;
ghost use Rattle.kat_shape.specs.Forms.{CellForm, IsGoodForm};
ghost use Rattle.kat_shape.specs.Values.{OneShape};
ghost use Rattle.kat_type.specs.declared.done.Done.{Done};

use kat_lattice::Lattice;
use kat_num::Value;
use kat_shape::tells_values_apart;

/// The sum of a replica in two united lists is the greater of its sums in them, if of each origin the one list's
/// operations are among the other's.
pub fn sums_unite()
    ensures { SumsUnite }
{}

/// The sum of a replica is at most the greatest weight for each operation that was done.
pub fn sums_within()
    ensures { SumsWithin }
{}

/// Tallies mean what they should.
pub fn tallies_mean()
    ensures { (weight : Done → ℕ) → Means TalliesKin (tallied weight) }
{}

/// Joins of effects mean what they should, in any lattice.
pub fn joins_mean<L: Lattice>()
    ensures { (e : Effects L) → AreEffects L.kin e → Means L.kin (joins e) }
{}

/// Cells mean what they should: the start joined with what the operations give to each leaf.
pub fn cells_mean()
    ensures { (shape : CellForm) (starts : List values.Value) (effects : List (Option (List Leaf))) → IsGoodForm shape
        → Means OneShape (joins (cell_effects shape starts effects)) }
{}

/// Sets mean what they should: the keys that operations add.
pub fn sets_mean<K: Ord + Copy>()
    ensures { TellsApart K.cmp → (key_of : Done → Option K) → Means (SetsKin K.cmp) (joins (set_effects K.cmp key_of)) }
{}

/// States that are read key by key mean what they should, if those at each key do.
pub fn keyed_mean<T: Lattice, S: Lattice, K: Copy>()
    ensures { (t : Meaning T) (m : K → Meaning S) (read : T → K → S) → IsKeyed T.kin t m read → ((k : K) → Means S.kin (m k))
        → Means T.kin t }
{}

/// Tallies at keys mean what they should.
pub fn keyed_tallies_mean<K: Ord + Copy>()
    ensures { TellsApart K.cmp → (key_of : Done → K) (weight : Done → ℕ)
        → Means (MapsKin K.cmp TalliesKin tallies_joined) (keyed_tallies K.cmp key_of weight) }
{}

/// States in a variant of an enum mean what those in it do.
pub fn wrapped_mean<P: Lattice, S: Lattice>()
    ensures { (p : Meaning P) (m : Meaning S) (wrap : S → P) → IsWrapped P.kin S.kin p m wrap → Means S.kin m → Means P.kin p }
{}

/// Components that mean what they should, together do.
pub fn all_mean<L: Lattice>()
    ensures { (ms : List (Meaning L)) → AllByRecursion (λ m. Means L.kin m) ms → Means (are_kin L.kin) (all_of ms) }
{}

/// A well-sorted design means what it should: its state depends on the operations alone and not on their order, one operation
/// more is added to it, and two states join to that of all operations, if of each origin the one list's operations are among
/// the other's.
pub fn designs_mean()
    ensures { (d : DesignForm) → IsWellSorted d → Means (are_kin PartsKin) (design_meaning d) }
{
    tells_values_apart();
}

/// A table is at each key the cell of the operations whose key it is: its start joined with their effects.
pub fn tables_are_cells()
    ensures { TablesAreCells }
{
    tells_values_apart();
}

/// A set has the keys that some operation adds, and no others.
pub fn sets_have_added()
    ensures { SetsHaveAdded }
{
    tells_values_apart();
}

/// A tally has for each replica the sum of the weights of its operations.
pub fn tallies_sum()
    ensures { TalliesSum }
{}

/// Tallies by key have at each key, for each replica, the sum of the weights of its operations whose key it is.
pub fn keyed_tallies_sum()
    ensures { KeyedTalliesSum }
{
    tells_values_apart();
}

/// All states that operations give to one design go together, and what goes together does so in either order and by way of
/// a third.
pub fn states_go_together()
    ensures denotations { (d : DesignForm) (xs ys : List Done) → IsWellSorted d
        → are_kin PartsKin (denotation_of d xs) (denotation_of d ys) }
    ensures turned { (xs ys : List Part) → are_kin PartsKin xs ys → are_kin PartsKin ys xs }
    ensures chained { (xs ys zs : List Part) → are_kin PartsKin xs ys → are_kin PartsKin ys zs
        → are_kin PartsKin xs zs }
{
    designs_mean();
}

/// States that go with what a design gives to no operation join part by part.
pub fn states_join_by_parts()
    ensures { (d : DesignForm) (xs ys : List Part)
        → are_kin PartsKin xs (denotation_of d []) → are_kin PartsKin ys (denotation_of d [])
        → (design_meaning d).joined xs ys ≡ parts_joined xs ys }
{}

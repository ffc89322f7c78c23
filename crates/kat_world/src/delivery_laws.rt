//! What holds of deliveries: each law is a call that does nothing, whose clause says it.
ghost use Rattle.std.specs.Prelude.{ℕ, List, ◌∷◌, ◌++◌};
ghost use Rattle.kat_world.specs.Deliveries.{HasAbsorbed, NoneShips, RunAlike, world_of};
ghost use Rattle.kat_script.specs.declared.script.Line.{Line};
ghost use Rattle.kat_script.specs.declared.script.Line.TheVariants.{Deliver};

use crate::laws::same_operations_same_lines;

/// A delivery of a packet whose operations the replica has all absorbed may be left out: whatever lines come after it, they
/// print the same, and every clock is the same. So nothing is missed of a packet that is lost if its operations came by another
/// way.
pub fn absorbed_deliveries_change_nothing()
    ensures { (n p r : ℕ) (before behind : List Line) → HasAbsorbed (world_of n before) r p
        → RunAlike n (before ++ Deliver p r ∷ behind) (before ++ behind) }
{
    same_operations_same_lines();
}

/// A packet that was delivered may be delivered again, at once or at any later place, as long as its word isn't shipped
/// anew: the second delivery changes nothing that is printed, and no clock.
pub fn packets_come_again()
    ensures { (n p r : ℕ) (before between behind : List Line) → NoneShips between p
        → RunAlike n (before ++ Deliver p r ∷ (between ++ Deliver p r ∷ behind)) (before ++ Deliver p r ∷ (between ++ behind)) }
{
    same_operations_same_lines();
}

/// Two deliveries, one after the other, may be exchanged, whether they go to one replica or to two: whatever lines come after them, they
/// print the same, and every clock is the same.
pub fn packets_come_in_any_order()
    ensures { (n p r q s : ℕ) (before behind : List Line)
        → RunAlike n (before ++ Deliver p r ∷ Deliver q s ∷ behind) (before ++ Deliver q s ∷ Deliver p r ∷ behind) }
{
    same_operations_same_lines();
}

//! What holds of signatures, of ranks, and of arrangements of operations.
ghost use Rattle.std.specs.Prelude.{◌≡◌, List};
ghost use Rattle.std.specs.Cmp.{IsTotalOrder};
ghost use Rattle.std.specs.List.Sorted.{IsPermutation, IsSorted};
ghost use Rattle.std.specs.declared.cmp.Ordering.TheVariants.{Equal};
ghost use Rattle.kat_type.specs.Arrangements.{AreApart, IsCanonical, RespectsRanks, canonical, canonical_cmp};
ghost use Rattle.kat_type.specs.Fits.{IsWellSorted};
ghost use Rattle.kat_type.specs.Lists.{IsOnce};
ghost use Rattle.kat_type.specs.Ranks.{rank_cmp, rank_of};
ghost use Rattle.kat_type.specs.Signatures.{IsSmall, signature_of};
ghost use Rattle.kat_type.specs.Types.{TypeForm};
ghost use Rattle.kat_type.specs.declared.done.Done.{Done};

/// Operations are ordered by rank, and also by rank, time and replica: what is compared the other way round has the
/// answer turned round, what comes before something comes before all that this comes before, and what ties with
/// something compares like it.
pub fn orders_are_total()
    ensures ranks { IsTotalOrder rank_cmp }
    ensures canonical { (ty : TypeForm) → IsTotalOrder (canonical_cmp ty) }
{}

/// Only operations of equal ranks, times and replicas tie in the canonical order.
pub fn ties_have_one_time_and_replica()
    ensures { (ty : TypeForm) (one other : Done) → canonical_cmp ty one other ≡ Equal
        → (rank_cmp (rank_of ty one) (rank_of ty other) ≡ Equal) × (one.replica ≡ other.replica) × (one.time ≡ other.time) }
{}

/// Operations that time and replica tell apart have one canonical arrangement, and it respects their ranks. Sorting them gives it, if each
/// occurs once.
pub fn canonical_arrangements()
    ensures some { (ty : TypeForm) (ones : List Done) → AreApart ones → IsCanonical ty (canonical ty ones) ones }
    ensures one { (ty : TypeForm) (some other ones : List Done) → IsCanonical ty some ones → IsCanonical ty other ones → some ≡ other }
    ensures respects { (ty : TypeForm) (arranged ones : List Done) → IsCanonical ty arranged ones → RespectsRanks ty arranged }
    ensures sorted { (ty : TypeForm) (sorted ones : List Done) → IsOnce ones → AreApart ones → IsPermutation ones sorted
        → IsSorted (canonical_cmp ty) sorted
        → IsCanonical ty sorted ones }
{}

/// The signature of a type within the limits has at most 12 operations and queries, each with at most 4 arguments.
pub fn signatures_are_small()
    ensures { (ty : TypeForm) → IsWellSorted ty → IsSmall (signature_of ty) }
{}

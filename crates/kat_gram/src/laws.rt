//! What holds of listings: each law is a call that does nothing, whose clause says it.
ghost use Rattle.std.specs.Prelude.{◌≡◌, ◌≤◌, ℕ, List, [], Some};
ghost use Rattle.kat_design.specs.Designs.{DesignForm};
ghost use Rattle.kat_design.specs.Faults.{faults_of};
ghost use Rattle.kat_gram.specs.Listings.{IsLast, Stream, designs_of, given_of, to_come};
ghost use Rattle.kat_rules.specs.Listed.{IsListed, IsListing};
ghost use Rattle.kat_rules.specs.declared.kind_sets.Kinds.{Kinds};
ghost use Rattle.kat_type.specs.Fits.{IsWellSorted};
ghost use Rattle.kat_type.specs.Types.{TypeForm};

/// A type has a listing for each size up to 24 and each set of kinds.
pub fn each_type_has_a_listing()
    ensures { (ty : TypeForm) (n : ℕ) (kinds : Kinds) → IsWellSorted ty → n ≤ 24 → (designs : List DesignForm)
        × IsListing ty n kinds designs }
{}

/// A type has one listing for each size and each set of kinds.
pub fn a_type_has_one_listing()
    ensures { (ty : TypeForm) (n : ℕ) (kinds : Kinds) (some other : List DesignForm) → IsListing ty n kinds some
        → IsListing ty n kinds other → some ≡ other }
{}

/// Two listings of a type that have given the same design last have given the same designs, and go on with the same ones: so a
/// listing that is resumed after the last design of another goes on as that one does.
pub fn listings_go_on_alike()
    ensures { (ty : TypeForm) (n : ℕ) (kinds : Kinds) (some other : Stream) (d : DesignForm) → IsListing ty n kinds (designs_of some)
        → IsListing ty n kinds (designs_of other)
        → IsLast (Some d) (given_of some) → IsLast (Some d) (given_of other) → (given_of some ≡ given_of other)
        × (to_come some ≡ to_come other) }
{}

/// The designs of a listing break no rule of the sort check.
pub fn listed_designs_are_accepted()
    ensures { (ty : TypeForm) (n : ℕ) (kinds : Kinds) (d : DesignForm) → n ≤ 24 → IsListed ty n kinds d → faults_of d ≡ [] }
{}

//! Laws of the definition of encodings.
ghost use Rattle.std.specs.Prelude.{◌≡◌, ℕ, List, Some};
ghost use Rattle.kat_linear.specs.Rows.{Form};
ghost use Rattle.kat_form.specs.Encodings.{Sense, atom_at};
ghost use Rattle.kat_form.specs.Encodings.Sense.{atom};
ghost use Rattle.kat_form.specs.Readings.{place_of};
ghost use Rattle.kat_form.specs.Laws.{TruthExtends, ClausesDecide, ValuationsDecide, NumbersDecide, PointsDecide, EncodingsAreWhole, NumbersSuffice, SizedFactsAreFit};

/// A law: the variable that encoding finds for an atom stands for that very form, so that one variable never stands for
/// two forms.
pub fn found_atoms_are_the_form()
    ensures { (form : Form) (senses : List Sense) (n : ℕ) → place_of (atom form) senses ≡ Some n → atom_at senses n ≡ Some form }
{}

/// The laws that give an encoding its meaning. If all facts are true, the values of truth variables and atoms extend to
/// values of all propositional variables that make all clauses true; and values that make all clauses true make all facts
/// true, each atom having the value of its variable. Atoms may have any values; if they have those that whole numbers
/// give them, a fact's value is what it says of these numbers, and so it is at a point of fractions that makes each form
/// at most 0 or at least 1.
pub fn clauses_say_what_facts_say()
    ensures extend { TruthExtends }
    ensures decide { ClausesDecide }
    ensures valuations { ValuationsDecide }
    ensures numbers { NumbersDecide }
    ensures points { PointsDecide }
{}

/// Laws: the clauses of every encoding have literals of its variables alone, and no truth variable and no atom is what two
/// of them stand for; its atoms' number variables are below the stated number; and the encoding of sized facts with
/// ascending rows is fit.
pub fn encodings_are_fit()
    ensures whole { EncodingsAreWhole }
    ensures numbers { NumbersSuffice }
    ensures fit { SizedFactsAreFit }
{}

//! What holds of all names and values.
ghost use Rattle.std.specs.Prelude.{◌≡◌, ◌^◌, ◌<◌, List, ℕ};
ghost use Rattle.std.specs.Cmp.Lexicographic.{slice_cmp};
ghost use Rattle.std.specs.Ordering.{nat_cmp};
ghost use Rattle.kat_num.specs.Names.{IsName, code_of, name_of_code};
ghost use Rattle.kat_num.specs.Values.{IsArgument, IsArgumentText, value_text};
ghost use Rattle.kat_num.specs.declared.values.Sort.{Sort};
ghost use Rattle.kat_num.specs.declared.values.Value.{Value};

/// A name is known by its code, and the order of codes is the bytewise order of names.
pub fn codes_and_names()
    ensures name { (name : List ℕ) → IsName name → name_of_code (code_of name) ≡ name }
    ensures small { (name : List ℕ) → IsName name → code_of name < 2 ^ 120 }
    ensures one_code { (some other : List ℕ) → IsName some → IsName other → code_of some ≡ code_of other → some ≡ other }
    ensures order { (some other : List ℕ) → IsName some → IsName other
        → nat_cmp (code_of some) (code_of other) ≡ slice_cmp nat_cmp some other }
{}

/// What is printed of an argument is a text of it, and a text has one value.
pub fn printed_is_read()
    ensures again { (sort : Sort) (value : Value) → IsArgument sort value → IsArgumentText sort (value_text value) value }
    ensures one_value { (sort : Sort) (text : List ℕ) (some other : Value) → IsArgumentText sort text some → IsArgumentText sort text other
        → some ≡ other }
{}

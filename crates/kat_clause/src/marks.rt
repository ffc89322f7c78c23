//! Marks by the codes of literals.
ghost use Rattle.std.specs.Prelude.{◌≡◌, ◌<◌, ◌⊎◌, ℤ, length, IfOk, replicate, false};
ghost use Rattle.std.specs.List.{Contains};
ghost use Rattle.kat_clause.specs.Literals.{code_of};
ghost use Rattle.kat_clause.specs.Tables.{IsMarked};

use crate::literals::code;
use std::alloc::{AllocError, Global};

/// This many marks, none of them set.
pub fn no_marks(alloc: Global, size: usize) -> Result<Vec<bool>, AllocError>
    ensures { IfOk result (λ marks. marks.items ≡ replicate size false) }
{
    vec![in alloc; false; size]
}

/// Marks the literals of a clause, for each of which there has to be a mark. Marks that are set stay so.
pub fn mark_literals(marks: &mut Vec<bool>, clause: &[i32])
    requires { (k : ℤ) → Contains clause.now k → code_of k < length marks.old.items }
    ensures size { length marks.new.items ≡ length marks.old.items }
    ensures marked { (k : ℤ) → IsMarked marks.old.items (code_of k) ⊎ Contains clause.now k → IsMarked marks.new.items (code_of k) }
    ensures only { (k : ℤ) → IsMarked marks.new.items (code_of k) → IsMarked marks.old.items (code_of k) ⊎ Contains clause.now k }
{
    for literal in clause {
        marks[code(*literal)] = true;
    }
}

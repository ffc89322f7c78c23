//! What holds of worlds, line by line, wherever they come from: each law is a call that does nothing, whose clause says it.
ghost use Rattle.std.specs.Prelude.{ℕ, [], List, ◌∷◌, ◌++◌};
ghost use Rattle.kat_script.specs.Facts.{HoldsFronts, done_in};
ghost use Rattle.kat_script.specs.Judged.{IsJudgedLine};
ghost use Rattle.kat_script.specs.World.{World, after, replica_at};
ghost use Rattle.kat_script.specs.declared.script.Line.{Line};
ghost use Rattle.kat_seq.specs.Operations.{CanBeDone};
ghost use Rattle.kat_type.specs.Alike.{FitsType};
ghost use Rattle.kat_type.specs.Lists.{Has};
ghost use Rattle.kat_type.specs.Types.{TypeForm};
ghost use Rattle.kat_type.specs.declared.done.Done.{Done};
ghost use Rattle.kat_type.specs.declared.signatures.Signature.{Signature};

/// If each replica and packet of a world holds a prefix of what was done, so it is after one more line that keeps the rules.
pub fn a_line_keeps_fronts()
    ensures { (sig : Signature) (past : List Done) (world : World) (line : Line) → HoldsFronts past world → IsJudgedLine sig world line
        → HoldsFronts (past ++ done_in (line ∷ [])) (after world line) }
{}

/// If each replica and packet of a world holds a prefix of what was done, all of which fits a type, what a replica absorbed can be
/// done together: so the type has an answer after it.
pub fn what_is_absorbed_can_be_done()
    ensures { (ty : TypeForm) (past : List Done) (world : World) (replica : ℕ) → HoldsFronts past world
        → ((one : Done) → Has past one → FitsType ty one) → CanBeDone ty (replica_at world replica).absorbed }
{}

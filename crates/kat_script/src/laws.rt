//! What holds of every text: for a signature it is a script or refused, in one way only. What holds of every
//! script that is read, and of its worlds.
ghost use Rattle.std.specs.Prelude.{◌≡◌, ◌++◌, ◌∷◌, ℕ, ◌⊎◌, List, [], length};
ghost use Rattle.kat_script.specs.Facts.{HasUpTo, HoldsFronts, IsFront, done_in};
ghost use Rattle.kat_lex.specs.declared.lexer.Token.{Token};
ghost use Rattle.kat_type.specs.Unions.{AreNested};
ghost use Rattle.kat_script.specs.Judged.{AreJudged, IsJudged, IsJudgedLine};
ghost use Rattle.kat_script.specs.Script.{IsRefused, IsScript, IsScriptText, Place, Reads, good, start};
ghost use Rattle.kat_script.specs.World.{Holder, World, first_world, world_after};
ghost use Rattle.kat_script.specs.declared.error.ScriptError.{ScriptError};
ghost use Rattle.kat_type.specs.declared.done.Done.{Done};
ghost use Rattle.kat_script.specs.declared.script.Line.{Line};
ghost use Rattle.kat_script.specs.declared.script.Script.{Script};
ghost use Rattle.kat_type.specs.declared.signatures.Signature.{Signature};

/// A text is a text of at most one script for a signature and has at most one refusal, and never both.
pub fn at_most_one_judgement()
    ensures script { (sig : Signature) (text : List ℕ) (some other : Script) → IsScriptText sig text some → IsScriptText sig text other
        → some ≡ other }
    ensures refusal { (sig : Signature) (text : List ℕ) (some other : ScriptError) → IsRefused sig text some → IsRefused sig text other
        → some ≡ other }
    ensures apart { (sig : Signature) (text : List ℕ) (script : Script) (error : ScriptError) → IsScriptText sig text script
        → IsRefused sig text error → ⊥ }
{}

/// Every text is a text of a script for a signature, or refused.
pub fn every_text_is_judged()
    ensures { (sig : Signature) (text : List ℕ) → ((script : Script) × IsScriptText sig text script)
        ⊎ ((error : ScriptError) × IsRefused sig text error) }
{}

/// The lines of a script are those that the reading of a text gives which ends well, and the other way round.
pub fn scripts_are_what_reads_well()
    ensures read { (sig : Signature) (lines : List (List Token)) (script : Script) (is : IsScript sig lines script)
        → Reads sig start lines script.lines (good is.last) }
    ensures script { (sig : Signature) (lines : List (List Token)) (script : Script) (last : Place)
        → Reads sig start lines script.lines (good last) → script.replicas ≡ length last.world.replicas
        → script.packets ≡ length last.words → IsScript sig lines script }
{}

/// What is known of a script that is read from a text, from the script alone: its replicas, packets,
/// operations and queries exist, its times exceed the clocks, and its arguments fit.
pub fn scripts_are_judged()
    ensures { (sig : Signature) (text : List ℕ) (script : Script) → IsScriptText sig text script → IsJudged sig script }
{}

/// Each of judged lines keeps the rules where the lines before it lead: its replica, packet, operation or query is there, its
/// arguments fit, and a time exceeds the clock. And a line that may come after judged lines is judged with them.
pub fn lines_are_judged_where_they_stand()
    ensures there { (sig : Signature) (world : World) (before : List Line) (line : Line) (behind : List Line)
        → AreJudged sig world (before ++ line ∷ behind)
        → IsJudgedLine sig (world_after world before) line }
    ensures further { (sig : Signature) (world : World) (before : List Line) (line : Line) → AreJudged sig world before
        → IsJudgedLine sig (world_after world before) line → AreJudged sig world (before ++ line ∷ []) }
{}

/// No line makes a replica or takes one away: so a replica of a world is one of the script's.
pub fn replicas_stay()
    ensures { (replicas : ℕ) (lines : List Line) → length (world_after (first_world replicas) lines).replicas ≡ replicas }
{}

/// In every world of judged lines, each replica and packet holds a prefix of what was done before.
pub fn worlds_hold_fronts()
    ensures { (sig : Signature) (replicas : ℕ) (before behind : List Line) → AreJudged sig (first_world replicas) (before ++ behind)
        → HoldsFronts (done_in before) (world_after (first_world replicas) before) }
{}

/// If a holder has a prefix of what was done, it has, of each replica, exactly the operations up to a
/// time; and of two such holders one has, of each replica, operations among the other's.
pub fn fronts_are_prefixes()
    ensures up_to { (past : List Done) (world : World) (holder : Holder) → HoldsFronts past world → IsFront past holder
        → (origin : ℕ) → (time : ℕ) × HasUpTo past holder origin time }
    ensures nested { (past : List Done) (world : World) (some other : Holder) → HoldsFronts past world → IsFront past some
        → IsFront past other
        → AreNested some.absorbed other.absorbed }
{}

//! What holds of replicas inside programs: each law is a call that does nothing, whose clause says it.
ghost use Rattle.std.specs.Prelude.{◌≡◌, ◌≢◌, ◌⊎◌, ℕ, ◌∷◌, ◌++◌, [], List, None};
ghost use Rattle.kat_actions.specs.Texts.{FitsSignature};
ghost use Rattle.kat_actions.specs.declared.calls.Call.{Call};
ghost use Rattle.kat_actions.specs.declared.calls.Verb.TheVariants as Verb;
ghost use Rattle.kat_node.specs.Packets.{with_packet};
ghost use Rattle.kat_node.specs.declared.nodes.Node as nodes;
ghost use Rattle.kat_step.specs.Limits.{refusal_of};
ghost use Rattle.kat_step.specs.Runs.{AreNear, IsStateFile};
ghost use Rattle.kat_step.specs.Steps.{done_by};
ghost use Rattle.kat_type.specs.Types.{TypeForm};
ghost use Rattle.kat_type.specs.Unions.{united};
ghost use Rattle.kat_type.specs.declared.done.Done.{Done};
ghost use Rattle.kat_wire.specs.FileForms.{FileForm};
ghost use Rattle.kat_embed.specs.Accepting.{AreAccepted, IsUnaccepted};
ghost use Rattle.kat_embed.specs.Calls.{AnswersAsAfter, IsTypesAnswer};
ghost use Rattle.kat_embed.specs.Contents.{IsOpened, IsSound, acted, design_of, file_of, with_node};
ghost use Rattle.kat_embed.specs.Sharing.{HasOperations, PacketsCatchUp};
ghost use Rattle.kat_embed.specs.declared.contents.Contents.{Contents};
ghost use Rattle.kat_embed.specs.declared.errors.AcceptError.{AcceptError};
ghost use Rattle.kat_embed.specs.declared.errors.AcceptError.TheVariants as Errors;

use kat_design::{designs_mean, states_go_together};
use kat_difference::{marks_tell_operations, marks_unite};
use kat_node::nodes_go_with_designs;
use kat_share::texts_say_one;
use kat_step::steps_keep_states;

/// Two texts say a type and a design file that is accepted for it, or they are refused; never both, and in one way only.
pub fn texts_are_judged()
    ensures judged { (first second : List ℕ) → ((ty : TypeForm) × (file : FileForm) × AreAccepted first second ty file)
        ⊎ ((error : AcceptError) × IsUnaccepted first second error × (error ≢ Errors.Memory)) }
    ensures apart { (first second : List ℕ) (ty : TypeForm) (file : FileForm) (error : AcceptError) → AreAccepted first second ty file
        → IsUnaccepted first second error
        → error ≡ Errors.Memory }
    ensures once { (first second : List ℕ) (some other : AcceptError) → IsUnaccepted first second some → IsUnaccepted first second other
        → some ≢ Errors.Memory → other ≢ Errors.Memory → some ≡ other }
{}

/// What a replica keeps is the state of the operations that it has, through all calls: one that was opened has none; an operation
/// adds itself, at one past the clock; and a state that is merged adds its own, if, of each replica, the one has a prefix by time of what
/// the other has. So what it answers is the type's.
pub fn calls_keep_states()
    ensures opened { (first second : List ℕ) (number : ℕ) (c : Contents) → IsSound c → IsOpened first second number c
        → IsStateFile (design_of c) (file_of c []) }
    ensures acted { (c : Contents) (call : Call) (has : List Done) → IsSound c → FitsSignature Verb.Do c.design.sig call
        → refusal_of (design_of c) c.node call ≡ None → IsStateFile (design_of c) (file_of c has)
        → IsStateFile (design_of c) (file_of (acted c call) (has ++ done_by c.node call ∷ [])) }
    ensures merged { (bytes : List ℕ) (before after : Contents) (packet : nodes.Node) (mine theirs : List Done) → IsSound before
        → after ≡ with_node before (with_packet before.node packet)
        → IsStateFile (design_of before) (file_of before mine) → IsStateFile (design_of before) (record { node = packet; has = theirs })
        → AreNear mine theirs → IsStateFile (design_of after) (file_of after (united mine theirs)) }
    ensures asked { (c : Contents) (call : Call) (has : List Done) (text : List ℕ) → IsStateFile (design_of c) (file_of c has)
        → AnswersAsAfter c call text
        → IsTypesAnswer c has call text }
{
    steps_keep_states();
}

/// What a replica has, and its marks, if they are known, are those of the operations that it has, through all calls: as for
/// `calls_keep_states`; and a packet that isn't refused adds all operations that its sender had, if, of each replica, one list has a
/// prefix by time of what the other has: those of the receiver beside those that were known of it, and beside those of the sender.
pub fn calls_keep_marks()
    ensures opened { (first second : List ℕ) (number : ℕ) (c : Contents) → IsSound c → IsOpened first second number c
        → HasOperations c [] }
    ensures acted { (c : Contents) (call : Call) (has : List Done) → IsSound c → FitsSignature Verb.Do c.design.sig call
        → refusal_of (design_of c) c.node call ≡ None → HasOperations c has
        → HasOperations (acted c call) (has ++ done_by c.node call ∷ []) }
    ensures merged { (before after : Contents) (packet : nodes.Node) (mine theirs : List Done) → IsSound before
        → after ≡ with_node before (with_packet before.node packet)
        → HasOperations before mine → IsStateFile (design_of before) (record { node = packet; has = theirs })
        → AreNear mine theirs → HasOperations after (united mine theirs) }
    ensures caught_up { PacketsCatchUp }
{
    designs_mean();
    states_go_together();
    nodes_go_with_designs();
    marks_tell_operations();
    marks_unite();
    texts_say_one();
    steps_keep_states();
}

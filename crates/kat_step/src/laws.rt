//! What actions are, when they are refused for a sum, what a file has after a step, and what files have that only calls wrote:
//! each law is a call that does nothing, whose clause says it.
ghost use Rattle.std.specs.Prelude.{◌≡◌, ◌+◌, ◌<◌, ◌∷◌, ◌++◌, ◌↔◌, ◌⊎◌, List, None, length, map, true};
ghost use Rattle.std.specs.List.{AllByRecursion};
ghost use Rattle.kat_design.specs.Denotations.{denotation_of};
ghost use Rattle.kat_design.specs.Designs.{DesignForm};
ghost use Rattle.kat_design.specs.Sorted.{EachHas, IsWellSorted};
ghost use Rattle.kat_type.specs.Lists.{Has, IsOnce};
ghost use Rattle.kat_type.specs.declared.done.Done.{Done};
ghost use Rattle.kat_actions.specs.Texts.{FitsSignature};
ghost use Rattle.kat_actions.specs.declared.calls.Call.{Call};
ghost use Rattle.kat_actions.specs.declared.calls.Verb.TheVariants as Verb;
ghost use Rattle.kat_node.specs.Nodes.{IsNode};
ghost use Rattle.kat_node.specs.Packets.{AreAllNested, all_united, parts_of, with_packets};
ghost use Rattle.kat_node.specs.declared.nodes.Node as nodes;
ghost use Rattle.kat_step.specs.Limits.{IsStatePast, first_refusal, passes_limit};
ghost use Rattle.kat_step.specs.Runs.{AreAllNear, AreNear, AreWritten, File, IsStateFile, WasRead, greatest_clock, lists_of, nodes_of, stepped_file};
ghost use Rattle.kat_step.specs.Steps.{done_by, done_from, with_action, with_actions};

use kat_design::designs_mean;
use kat_script::TIME_LIMIT;
use kat_shape::tells_values_apart;

/// Actions are operations of the node's replica, at one past the clock before each: if the state is what some operations
/// give, it is what they and these give then; and so after packets too, if of any two of the lists (that of the state, and those
/// of the packets) the one's operations of each origin are among the other's.
pub fn actions_are_operations()
    ensures denotes { (d : DesignForm) (xs : List Done) (node : nodes.Node) (actions : List Call) → IsWellSorted d
        → parts_of node ≡ denotation_of d xs
        → parts_of (with_actions d node actions) ≡ denotation_of d (xs ++ done_from node.number node.replica.clock actions) }
    ensures unites { (d : DesignForm) (xs : List Done) (lists : List (List Done)) (node : nodes.Node) (packets : List nodes.Node)
        (actions : List Call) → IsWellSorted d → IsOnce xs → AreAllNested xs lists
        → parts_of node ≡ denotation_of d xs → map parts_of packets ≡ map (denotation_of d) lists
        → parts_of (with_actions d (with_packets node packets) actions)
        ≡ denotation_of d (all_united xs lists ++ done_from node.number (with_packets node packets).replica.clock actions) }
    ensures number { (d : DesignForm) (node : nodes.Node) (actions : List Call) → (with_actions d node actions).number ≡ node.number }
    ensures clock { (d : DesignForm) (node : nodes.Node) (actions : List Call)
        → (with_actions d node actions).replica.clock ≡ node.replica.clock + length actions }
{
    designs_mean();
}

/// Files of one design that only calls of `new_node`, `united` and `stepped` wrote: if each number was begun once, and each
/// step took what its replica wrote last, each file is the state of the legal operations that it has, none later than its clock;
/// and of two files one has, of each replica, a prefix of what the other has.
pub fn written_files_are_states()
    ensures states { (d : DesignForm) (files : List File) → IsWellSorted d → AreWritten d files → (file : File) → Has files file
        → IsStateFile d file }
    ensures near { (d : DesignForm) (files : List File) → IsWellSorted d → AreWritten d files → (some other : File) → Has files some
        → Has files other → AreNear some.has other.has }
{
    designs_mean();
    tells_values_apart();
}

/// One step, whatever wrote the files that it read: if the replica's file and each packet is the state of the legal operations
/// that it has, none later than its clock, and any two of these files are near, the file after the packets and actions is such
/// a state again. It has exactly what these files have and the operations of the actions, each at the replica's number, at one
/// past the clock before it, from the greatest clock of the files on; and its clock is the time of the last of them, or that
/// greatest clock.
pub fn steps_keep_states()
    ensures states { (d : DesignForm) (file : File) (packets : List File) (actions : List Call) → IsWellSorted d
        → EachHas (IsStateFile d) (file ∷ packets) → AreAllNear (lists_of (file ∷ packets))
        → AllByRecursion (FitsSignature Verb.Do d.sig) actions
        → first_refusal d (with_packets file.node (nodes_of packets)) actions ≡ None
        → IsStateFile d (stepped_file d file packets actions) }
    ensures has { (d : DesignForm) (file : File) (packets : List File) (actions : List Call) (one : Done)
        → Has (stepped_file d file packets actions).has one
        ↔ (WasRead (file ∷ packets) one ⊎ Has (done_from file.node.number (greatest_clock (file ∷ packets)) actions) one) }
    ensures number { (d : DesignForm) (file : File) (packets : List File) (actions : List Call)
        → (stepped_file d file packets actions).node.number ≡ file.node.number }
    ensures clock { (d : DesignForm) (file : File) (packets : List File) (actions : List Call)
        → (stepped_file d file packets actions).node.replica.clock ≡ greatest_clock (file ∷ packets) + length actions }
{
    designs_mean();
    tells_values_apart();
}

/// An action that fits, and whose time is within its limit, passes the limit of sums if and only if the state with its operation
/// has a sum past 10^18.
pub fn full_states_have_great_sums()
    ensures { (d : DesignForm) (node : nodes.Node) (call : Call) → IsWellSorted d → IsNode d node → FitsSignature Verb.Do d.sig call
        → node.replica.clock < TIME_LIMIT
        → (passes_limit d.components (parts_of node) (done_by node call) ≡ true) ↔ IsStatePast (parts_of (with_action d node call)) }
{
    tells_values_apart();
}

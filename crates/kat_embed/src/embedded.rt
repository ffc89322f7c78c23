//! Replicas of accepted designs.
ghost use Rattle.std.specs.Prelude.{◌≡◌, ◌≤◌, ◌↔◌, ℕ, false, IfErr, IfOk, MatchOption, OnErr, OnOk};
ghost use Rattle.kat_actions.specs.Texts.{FitsSignature};
ghost use Rattle.kat_design.specs.Answers.{answer_of};
ghost use Rattle.kat_design.specs.Designs.{design_form};
ghost use Rattle.kat_node.specs.NodeFiles.{IsNodeRefusal, IsNodeText};
ghost use Rattle.kat_node.specs.Packets.{parts_of};
ghost use Rattle.kat_node.specs.StateData.{node_text};
ghost use Rattle.kat_num.specs.Values.{value_text};
ghost use Rattle.kat_step.specs.Limits.{IsStepRefusal, refusal_of};
ghost use Rattle.kat_embed.specs.Accepting.{IsUnaccepted};
ghost use Rattle.kat_embed.specs.Alike.{AreApart};
ghost use Rattle.kat_embed.specs.Calls.{AnswersAsAfter, IsCallText, IsNoCall, SaysAsAfter};
ghost use Rattle.kat_embed.specs.Contents.{AddsOperation, IsAnother, IsMerged, IsOpened, IsRestored, IsSound, UnitesOperations, acted, design_of};
ghost use Rattle.kat_embed.specs.Keys.{AreKeysOf, AreNewKeysOf, HasNoNewKeys, HasNoQuery};
ghost use Rattle.kat_embed.specs.Numbered.{IsNotNumbered, IsNumberOf, IsNumbered};
ghost use Rattle.kat_embed.specs.Passing.{Says};
ghost use Rattle.kat_embed.specs.Sharing.{CatchesNotUp, HasNoMarks, IsCaughtUp, IsShared, TellsDifference, TellsMarks, TellsNoDifference, TellsShare};
ghost use Rattle.kat_share.specs.ShareTexts.{IsShareRefusal};

use crate::accepting::{Typed, accept, read_typed};
use crate::alike::all_alike;
use crate::calls::call_in;
use crate::contents::Contents;
use crate::copies::copied_type;
use crate::errors::{AcceptError, CallError, KeysError, MergeError, SharingError};
use crate::keys::{keys_in, keys_text, read_by};
use crate::news::new_keys_in;
use crate::numbered::{call_numbered, number_of};
use crate::passing::{TaggedValue, passed_as};
use crate::sharing::{catch_up, difference_text, marks_text, raised, share_text};
use crate::steps::{act_on, answer_text, answer_value, take_in};
use kat_actions::{Call, Verb};
use kat_lattice::Tally;
use kat_node::{
    NodeError, nodes_go_with_designs, packets_leave_nodes, packets_unite, read_node, write_node,
    written_nodes_are_read,
};
use kat_num::Value;
use kat_share::{ShareError, read_share};
use kat_step::{StepError, actions_are_operations, new_node};
use std::alloc::{AllocError, Global};
use std::marker::Model;

/// A replica of a design whose proof was accepted for a type. What contracts see of it is its [`Contents`].
///
/// ```
/// let mut here = Embedded::open(alloc, ty, design, 1)?;
/// let call = here.call_of(alloc, Verb::Do, b"add \"milk\" 2")?;
/// here.act(alloc, call)?;
/// there.merge(alloc, &here.state(alloc)?)?;
/// ```
pub struct Embedded {
    contents: Contents,
}

impl Drop for Embedded {
    fn drop(self) {
        let Self { contents: _ } = self;
    }
}

impl Model for Embedded {
    ghost use Rattle.kat_embed.specs.contracts.contents.Contents as c;
    ghost use Rattle.kat_embed.specs.declared.contents.Contents.{Contents};

    ghost Value = { Contents };

    ghost coded = { c.the_row.coded };

    ghost use Rattle.kat_embed.specs.Contents.{IsSound};

    ghost view = { λ e. e.contents };

    ghost invariant = { λ e. IsSound e.contents };
}

impl Embedded {
    /// A replica that did nothing, of the design in a file whose proof is accepted for the type of a type file. Its number is
    /// from 1 to 32.
    pub fn open(
        alloc: Global,
        ty: &[u8],
        design: &[u8],
        number: u32,
    ) -> Result<Embedded, AcceptError>
        requires least { 1 ≤ number }
        requires most { number ≤ 32 }
        ensures opened { IfOk result (IsOpened ty.now design.now number) }
        ensures refused { IfErr result (IsUnaccepted ty.now design.now) }
    {
        let read = read_typed(alloc, ty, design)?;
        match accept(alloc, &read) {
            Ok(()) => {}
            Err(error) => return Err(error),
        }
        let Typed { ty, file } = read;
        let node = new_node(alloc, &file.design, number)?;
        let marks = Tally::new(alloc);
        let design = file.into_design();
        Ok(Embedded {
            contents: Contents {
                ty,
                design,
                node,
                marks: Some(marks),
            },
        })
    }

    /// Another replica of its type and design, with a number from 1 to 32, that did nothing. The proof isn't checked again.
    pub fn another(&self, alloc: Global, number: u32) -> Result<Embedded, AllocError>
        requires least { 1 ≤ number }
        requires most { number ≤ 32 }
        ensures { IfOk result (IsAnother self.now number) }
    {
        let ty = copied_type(alloc, &self.contents.ty)?;
        let design = self.contents.design.copy(alloc)?;
        let node = new_node(alloc, &design, number)?;
        let marks = Tally::new(alloc);
        Ok(Embedded {
            contents: Contents {
                ty,
                design,
                node,
                marks: Some(marks),
            },
        })
    }

    /// The time of the last operation that it did or took in; 0 at first.
    pub fn clock(&self) -> u64
        ensures clock { result ≡ self.now.node.replica.clock }
        ensures sound { IsSound self.now }
    {
        self.contents.node.replica.clock
    }

    /// The operation or query that a text calls, as a script has it: `add "milk" 2`.
    pub fn call_of(&self, alloc: Global, verb: Verb, text: &[u8]) -> Result<Call, CallError>
        ensures call { IfOk result (IsCallText verb self.now.design.sig text.now) }
        ensures fits { IfOk result (FitsSignature verb self.now.design.sig) }
        ensures refused { IfErr result (IsNoCall verb self.now.design.sig text.now) }
    {
        call_in(alloc, verb, &self.contents.design.sig, text)
    }

    /// The number of the operation or query of a name, from 0, in the order of the type file.
    pub fn number_of(&self, verb: Verb, name: &[u8]) -> Option<u32>
        ensures { MatchOption result ((number : ℕ) → IsNumberOf verb self.now.design.sig name.now number
            → ⊥) (IsNumberOf verb self.now.design.sig name.now) }
    {
        number_of(verb, &self.contents.design.sig, name)
    }

    /// The call of the operation or query of a number, with the arguments that are passed.
    pub fn call_numbered(
        &self,
        alloc: Global,
        verb: Verb,
        number: u32,
        passed: &[TaggedValue],
    ) -> Result<Call, CallError>
        ensures call { IfOk result (IsNumbered verb self.now.design.sig number passed.now) }
        ensures fits { IfOk result (FitsSignature verb self.now.design.sig) }
        ensures refused { IfErr result (IsNotNumbered verb self.now.design.sig number passed.now) }
    {
        call_numbered(alloc, verb, &self.contents.design.sig, number, passed)
    }

    /// Does an operation, at one past the clock. It is refused if its time would pass 10^9, and otherwise if it would make a sum pass
    /// 10^18. After an error the replica is as it was.
    pub fn act(&mut self, alloc: Global, call: Call) -> Result<(), StepError>
        requires { FitsSignature Verb.Do self.old.design.sig call }
        ensures acted { OnOk result (self.new ≡ acted self.old call) }
        ensures adds { OnOk result (AddsOperation self.old call self.new) }
        ensures refused { IfErr result (IsStepRefusal (refusal_of (design_of self.old) self.old.node call)) }
        ensures err { OnErr result (self.new ≡ self.old) }
    {
        actions_are_operations();
        let number = self.contents.node.number;
        let clock = self.contents.node.replica.clock;
        let next = raised(alloc, &self.contents.marks, number, clock)?;
        act_on(alloc, &self.contents.design, &mut self.contents.node, call)?;
        self.contents.marks = next;
        Ok(())
    }

    /// The text of the answer to a query.
    pub fn ask(&self, alloc: Global, call: &Call) -> Result<Vec<u8>, AllocError>
        requires { FitsSignature Verb.Ask self.now.design.sig call.now }
        ensures text { IfOk result (λ text. text.items
            ≡ value_text (answer_of (design_of self.now) (parts_of self.now.node) call.now.item call.now.args)) }
        ensures sequential { IfOk result (λ text. AnswersAsAfter self.now call.now text.items) }
    {
        let text = answer_text(alloc, &self.contents.design, &self.contents.node, call)?;
        Ok(text)
    }

    /// The answer to a query, as it is passed.
    pub fn answer(&self, alloc: Global, call: &Call) -> Result<TaggedValue, AllocError>
        requires { FitsSignature Verb.Ask self.now.design.sig call.now }
        ensures answer { IfOk result
            (λ passed. Says passed (answer_of (design_of self.now) (parts_of self.now.node) call.now.item call.now.args)) }
        ensures sequential { IfOk result (SaysAsAfter self.now call.now) }
    {
        let answer = answer_value(&self.contents.design, &self.contents.node, call);
        let passed = passed_as(alloc, answer)?;
        Ok(passed)
    }

    /// The text of its state file, which other replicas of the design take in, and from which it can be set up again.
    pub fn state(&self, alloc: Global) -> Result<Vec<u8>, AllocError>
        ensures text { IfOk result (λ text. text.items ≡ node_text self.now.node) }
        ensures read { IfOk result (λ text. IsNodeText (design_of self.now) text.items self.now.node) }
    {
        nodes_go_with_designs();
        let text = write_node(alloc, &self.contents.node)?;
        Ok(text)
    }

    /// The text of the keys at which the query of a number may find something, ascending: those that one of the tables, sets and sums
    /// by key has which its ask reads.
    pub fn keys(&self, alloc: Global, query: u32) -> Result<Vec<u8>, CallError>
        ensures keys { IfOk result (λ text. AreKeysOf self.now query text.items) }
        ensures refused { IfErr result (HasNoQuery self.now query) }
    {
        let design = &self.contents.design;
        if query as usize >= design.sig.queries.as_slice().len() {
            return Err(CallError::NoCall);
        }
        let components = read_by(alloc, design.asks.as_slice(), query)?;
        let parts = self.contents.node.replica.state.parts.as_slice();
        let keys = keys_in(alloc, parts, &components)?;
        let text = keys_text(alloc, keys.keys())?;
        Ok(text)
    }

    /// The text of those keys at which one of these has something that it lacks in a state file: in an earlier one of this replica,
    /// what changed since.
    pub fn keys_beyond(&self, alloc: Global, query: u32, known: &[u8]) -> Result<Vec<u8>, KeysError>
        ensures keys { IfOk result (λ text. AreNewKeysOf self.now query known.now text.items) }
        ensures refused { IfErr result (HasNoNewKeys self.now query known.now) }
    {
        packets_leave_nodes();
        let design = &self.contents.design;
        if query as usize >= design.sig.queries.as_slice().len() {
            return Err(KeysError::NoQuery);
        }
        let known = match read_node(alloc, known, design) {
            Ok(known) => known,
            Err(error) => return Err(KeysError::BadState(error)),
        };
        let components = read_by(alloc, design.asks.as_slice(), query)?;
        let before = known.replica.state.parts.as_slice();
        let parts = self.contents.node.replica.state.parts.as_slice();
        let keys = new_keys_in(alloc, before, parts, &components)?;
        let text = keys_text(alloc, keys.keys())?;
        Ok(text)
    }

    /// Takes in the state of another replica of the design, or an older one of this, and says whether that changed its state or its
    /// clock. Its marks aren't known from then on. After an error the replica is as it was.
    pub fn merge(&mut self, alloc: Global, state: &[u8]) -> Result<bool, NodeError>
        ensures merged { OnOk result (IsMerged state.now self.old self.new) }
        ensures told { IfOk result (λ changed. (changed ≡ false) ↔ (self.new.node ≡ self.old.node)) }
        ensures unites { OnOk result (UnitesOperations state.now self.old self.new) }
        ensures refused { IfErr result (IsNodeRefusal (design_of self.old) state.now) }
        ensures err { OnErr result (self.new ≡ self.old) }
    {
        packets_unite();
        let packet = read_node(alloc, state, &self.contents.design)?;
        let changed = take_in(
            alloc,
            &self.contents.design,
            &mut self.contents.node,
            &packet,
        )?;
        self.contents.marks = None;
        Ok(changed)
    }

    /// Takes in the state of another replica as `merge` takes in what `state` writes of it, with no text. After an error the replica
    /// is as it was.
    pub fn merge_from(&mut self, alloc: Global, other: &Embedded) -> Result<bool, MergeError>
        ensures merged { OnOk result (IsMerged (node_text other.now.node) self.old self.new) }
        ensures told { IfOk result (λ changed. (changed ≡ false) ↔ (self.new.node ≡ self.old.node)) }
        ensures unites { OnOk result (UnitesOperations (node_text other.now.node) self.old self.new) }
        ensures refused { IfErr result (AreApart self.old other.now) }
        ensures err { OnErr result (self.new ≡ self.old) }
    {
        packets_unite();
        written_nodes_are_read();
        let mine = self.contents.design.components.as_slice();
        if !all_alike(mine, other.contents.design.components.as_slice()) {
            return Err(MergeError::OtherDesign);
        }
        let packet = &other.contents.node;
        let changed = take_in(
            alloc,
            &self.contents.design,
            &mut self.contents.node,
            packet,
        )?;
        self.contents.marks = None;
        Ok(changed)
    }

    /// Becomes the replica that a state file has, with its number and clock, and without marks. After an error the replica is as it was.
    pub fn restore(&mut self, alloc: Global, state: &[u8]) -> Result<(), NodeError>
        ensures restored { OnOk result (IsRestored state.now self.old self.new) }
        ensures refused { IfErr result (IsNodeRefusal (design_of self.old) state.now) }
        ensures err { OnErr result (self.new ≡ self.old) }
    {
        let node = read_node(alloc, state, &self.contents.design)?;
        self.contents.node = node;
        self.contents.marks = None;
        Ok(())
    }

    /// The text of its marks: for each replica the time of its latest operation in the state. A peer that knows them knows what to send.
    pub fn marks(&self, alloc: Global) -> Result<Vec<u8>, SharingError>
        ensures marks { IfOk result (λ text. TellsMarks self.now.marks text.items) }
        ensures refused { IfErr result (HasNoMarks self.now.marks) }
    {
        let text = marks_text(alloc, &self.contents.node, &self.contents.marks)?;
        Ok(text)
    }

    /// The text of its share file: what a peer has once it took this replica's packets in, and from which it can be set up again.
    pub fn share(&self, alloc: Global) -> Result<Vec<u8>, SharingError>
        ensures share { IfOk result (λ text. TellsShare (design_of self.now) self.now.node self.now.marks text.items) }
        ensures refused { IfErr result (HasNoMarks self.now.marks) }
    {
        let contents = &self.contents;
        let text = share_text(alloc, &contents.design, &contents.node, &contents.marks)?;
        Ok(text)
    }

    /// The packet of what it has beyond a share file that a peer is known to have; with no bytes, of all that it has.
    pub fn difference(&self, alloc: Global, known: &[u8]) -> Result<Vec<u8>, SharingError>
        ensures packet { IfOk result (λ text. TellsDifference (design_of self.now) self.now.node self.now.marks known.now text.items) }
        ensures refused { IfErr result (TellsNoDifference (design_of self.now) self.now.marks known.now) }
    {
        let contents = &self.contents;
        let text = difference_text(
            alloc,
            &contents.design,
            &contents.node,
            &contents.marks,
            known,
        )?;
        Ok(text)
    }

    /// Takes a packet in, late or again, if it has all that comes before, and says whether that changed its state or its clock. After
    /// an error, and so after a gap, the replica is as it was.
    pub fn merge_difference(&mut self, alloc: Global, packet: &[u8]) -> Result<bool, SharingError>
        ensures merged { OnOk result (IsCaughtUp packet.now self.old self.new) }
        ensures told { IfOk result (λ changed. (changed ≡ false) ↔ (self.new.node ≡ self.old.node)) }
        ensures refused { IfErr result (CatchesNotUp (design_of self.old) packet.now self.old.marks) }
        ensures err { OnErr result (self.new ≡ self.old) }
    {
        let caught = catch_up(
            alloc,
            &self.contents.design,
            &mut self.contents.node,
            &self.contents.marks,
            packet,
        )?;
        self.contents.marks = Some(caught.marks);
        Ok(caught.changed)
    }

    /// Becomes the replica that a share file has, with its number, clock and marks. After an error the replica is as it was.
    pub fn restore_share(&mut self, alloc: Global, share: &[u8]) -> Result<(), ShareError>
        ensures restored { OnOk result (IsShared share.now self.old self.new) }
        ensures refused { IfErr result (IsShareRefusal (design_of self.old) share.now) }
        ensures err { OnErr result (self.new ≡ self.old) }
    {
        let read = read_share(alloc, share, &self.contents.design)?;
        self.contents.node = read.node;
        self.contents.marks = Some(read.marks);
        Ok(())
    }
}

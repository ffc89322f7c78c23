//! Replicas and packets.
ghost use Rattle.std.specs.Prelude.{◌≡◌, ◌<◌, ◌^◌, ◌++◌, ◌∷◌, [], true, max, All, IfOk, OnErr, OnOk, List};
ghost use Rattle.std.specs.List.{AllByRecursion, list_all};
ghost use Rattle.kat_design.specs.Answers.{answer_of};
ghost use Rattle.kat_design.specs.Denotations.{denotation_of, design_meaning};
ghost use Rattle.kat_design.specs.Designs.{DesignForm, design_form};
ghost use Rattle.kat_design.specs.Fitting.{FitsSignature};
ghost use Rattle.kat_design.specs.Meanings.{are_kin};
ghost use Rattle.kat_design.specs.Parts.{PartsKin, parts_joined};
ghost use Rattle.kat_design.specs.Small.{IsSmallDesign, IsSmallPart, is_roomy_part};
ghost use Rattle.kat_design.specs.Sorted.{IsWellSorted};
ghost use Rattle.kat_type.specs.Unions.{AreNested, united};
ghost use Rattle.kat_expr.specs.Limits.{IsAtMost};
ghost use Rattle.kat_replica.specs.Texts.{state_text};
ghost use Rattle.kat_replica.specs.Variants.{IsCell};
ghost use Rattle.kat_type.specs.Lists.{IsOnce};
ghost use Rattle.kat_type.specs.declared.done.Done as dones;

use crate::applying::apply_each;
use crate::delivering::{join_cells, join_each};
use crate::starts::start_parts;
use crate::texts::push_state;
use kat_design::{Design, Part, State, design_answer, designs_mean, states_join_by_parts};
use kat_num::{Items, Value};
use kat_shape::tells_values_apart;
use kat_type::Done;
use std::alloc::{AllocError, Global};
use std::mem;

/// A replica: its clock, and what it keeps.
///
/// ```
/// let mut first = Replica::new(alloc, &design)?;
/// let mut second = Replica::new(alloc, &design)?;
/// first.apply(alloc, &design, &done)?;
/// let packet = first.packet(alloc)?;
/// second.deliver(alloc, &packet)?;
/// // both have absorbed the operation
/// ```
#[derive(Drop)]
pub struct Replica {
    pub clock: u64,
    pub state: State,
}

/// What a replica shipped: its clock and its state at that time.
#[derive(Drop)]
pub struct Packet {
    pub clock: u64,
    pub state: State,
}

impl Packet {
    /// An equal packet.
    pub fn copy(&self, alloc: Global) -> Result<Packet, AllocError>
        ensures { IfOk result (λ copy. copy ≡ self.now) }
    {
        Ok(Packet {
            clock: self.clock,
            state: self.state.copy(alloc)?,
        })
    }
}

impl Replica {
    /// A replica that absorbed nothing: clock 0, and the starts of the design.
    pub fn new(alloc: Global, design: &Design) -> Result<Replica, AllocError>
        requires sorted { IsWellSorted (design_form design.now) }
        ensures clock { IfOk result (λ replica. replica.clock ≡ 0) }
        ensures state { IfOk result (λ replica. replica.state.parts ≡ denotation_of (design_form design.now) []) }
    {
        let parts = start_parts(alloc, design.components.as_slice())?;
        Ok(Replica {
            clock: 0,
            state: State {
                parts: Items::from_vec(parts),
            },
        })
    }

    /// Does an operation: its effects are joined in, its weights added, and the clock is its time. After an error the
    /// replica is as it was.
    ///
    /// The state is one of the design with room in each sum (`roomy`), the operation fits the design's signature, and its time
    /// exceeds the clock. A part on which the operation has no effect stays as it was, and the new state goes with the old one.
    pub fn apply(&mut self, alloc: Global, design: &Design, done: &Done) -> Result<(), AllocError>
        requires sorted { IsWellSorted (design_form design.now) }
        requires kin { are_kin PartsKin self.old.state.parts (denotation_of (design_form design.now) []) }
        requires room { list_all is_roomy_part self.old.state.parts ≡ true }
        requires fits { FitsSignature design.now.sig done.now }
        requires later { self.old.clock < done.now.time }
        ensures adds { OnOk result (self.new.state.parts ≡ (design_meaning (design_form design.now)).added self.old.state.parts done.now) }
        ensures denotes { OnOk result ((xs : List dones.Done) → self.old.state.parts ≡ denotation_of (design_form design.now) xs
            → self.new.state.parts ≡ denotation_of (design_form design.now) (xs ++ done.now ∷ [])) }
        ensures goes { OnOk result (are_kin PartsKin self.old.state.parts self.new.state.parts) }
        ensures clock { OnOk result (self.new.clock ≡ done.now.time) }
        ensures err { OnErr result (self.new ≡ self.old) }
    {
        designs_mean();
        tells_values_apart();
        let mut parts = self.take_parts(alloc);
        let applied = apply_each(alloc, &mut parts, design.components.as_slice(), done);
        self.state.parts = Items::from_vec(parts);
        applied?;
        self.clock = done.time;
        Ok(())
    }

    /// What is shipped: the clock and a copy of the state as they are.
    pub fn packet(&self, alloc: Global) -> Result<Packet, AllocError>
        ensures clock { IfOk result (λ packet. packet.clock ≡ self.now.clock) }
        ensures state { IfOk result (λ packet. packet.state ≡ self.now.state) }
    {
        Ok(Packet {
            clock: self.clock,
            state: self.state.copy(alloc)?,
        })
    }

    /// Takes a packet in: the greater clock, and the join of both states. A packet may come late, again, or never. After an
    /// error the replica is as it was.
    ///
    /// The states go together, and the new one with them. If each is what some operations give, and of each origin the
    /// operations of the one are among those of the other, the join is what all of them give.
    pub fn deliver(&mut self, alloc: Global, packet: &Packet) -> Result<(), AllocError>
        requires kin { are_kin PartsKin self.old.state.parts packet.now.state.parts }
        ensures joins { OnOk result (self.new.state.parts ≡ parts_joined self.old.state.parts packet.now.state.parts) }
        ensures unites { OnOk result ((d : DesignForm) (xs ys : List dones.Done) → IsWellSorted d → IsOnce xs → IsOnce ys → AreNested xs ys
            → self.old.state.parts ≡ denotation_of d xs → packet.now.state.parts ≡ denotation_of d ys
            → self.new.state.parts ≡ denotation_of d (united xs ys)) }
        ensures goes { OnOk result (are_kin PartsKin self.old.state.parts self.new.state.parts) }
        ensures clock { OnOk result (self.new.clock ≡ max self.old.clock packet.now.clock) }
        ensures err { OnErr result (self.new ≡ self.old) }
    {
        designs_mean();
        states_join_by_parts();
        self.take_in(alloc, packet.clock, &packet.state)
    }

    /// Takes a state in, with a clock: the greater clock, and the join of both states. After an error the replica is as it
    /// was.
    pub fn take_in(&mut self, alloc: Global, clock: u64, state: &State) -> Result<(), AllocError>
        requires kin { are_kin PartsKin self.old.state.parts state.now.parts }
        ensures joins { OnOk result (self.new.state.parts ≡ parts_joined self.old.state.parts state.now.parts) }
        ensures goes { OnOk result (are_kin PartsKin self.old.state.parts self.new.state.parts) }
        ensures clock { OnOk result (self.new.clock ≡ max self.old.clock clock) }
        ensures err { OnErr result (self.new ≡ self.old) }
    {
        let mut parts = self.take_parts(alloc);
        let joined = join_each(alloc, &mut parts, state.parts.as_slice());
        self.state.parts = Items::from_vec(parts);
        joined?;
        self.clock = later(self.clock, clock);
        Ok(())
    }

    /// Delivers a packet as `deliver` does, if all components are cells: without memory.
    pub fn deliver_flat(&mut self, packet: &Packet)
        requires kin { are_kin PartsKin self.old.state.parts packet.now.state.parts }
        requires cells { All IsCell self.old.state.parts }
        ensures joins { self.new.state.parts ≡ parts_joined self.old.state.parts packet.now.state.parts }
        ensures unites { (d : DesignForm) (xs ys : List dones.Done) → IsWellSorted d → IsOnce xs → IsOnce ys → AreNested xs ys
            → self.old.state.parts ≡ denotation_of d xs → packet.now.state.parts ≡ denotation_of d ys
            → self.new.state.parts ≡ denotation_of d (united xs ys) }
        ensures goes { are_kin PartsKin self.old.state.parts self.new.state.parts }
        ensures clock { self.new.clock ≡ max self.old.clock packet.now.clock }
    {
        designs_mean();
        states_join_by_parts();
        core::mem::replace_with(
            &mut self.state.parts,
            packet.state.parts.as_slice(),
            with_cells,
        );
        self.clock = later(self.clock, packet.clock);
    }

    /// The answer of a query, by its number, with these arguments.
    pub fn ask(&self, design: &Design, query: u32, args: &[Value]) -> Value
        requires small { IsSmallDesign (design_form design.now) }
        requires state { All IsSmallPart self.now.state.parts }
        requires args { All (IsAtMost (2 ^ 100)) args.now }
        ensures { result ≡ answer_of (design_form design.now) self.now.state.parts query args.now }
    {
        design_answer(design, &self.state, query, args)
    }

    /// Appends the text of the state. After an error the text is as it was.
    pub fn show(&self, alloc: Global, into: &mut Vec<u8>) -> Result<(), AllocError>
        ensures ok { OnOk result (into.new.items ≡ into.old.items ++ state_text self.now.state.parts) }
        ensures err { OnErr result (into.new.items ≡ into.old.items) }
    {
        push_state(alloc, &self.state, into)
    }

    /// Takes the parts out, to be put back. An empty list takes no memory.
    fn take_parts(&mut self, alloc: Global) -> Vec<Part>
        ensures parts { result.items ≡ self.old.state.parts }
        ensures clock { self.new.clock ≡ self.old.clock }
    {
        let none = Items::from_vec(Vec::new(alloc));
        mem::replace(&mut self.state.parts, none).into_vec()
    }
}

/// The later of two clocks.
fn later(clock: u64, other: u64) -> u64
    ensures { result ≡ max clock other }
{
    clock.max(other)
}

/// Parts that are all cells, with others joined to them.
fn with_cells(parts: Items<Part>, others: &[Part]) -> (Items<Part>, ())
    requires kin { are_kin PartsKin parts others.now }
    requires cells { AllByRecursion IsCell parts }
    ensures { result.0 ≡ parts_joined parts others.now }
{
    let mut parts = parts.into_vec();
    join_cells(&mut parts, others);
    (Items::from_vec(parts), ())
}

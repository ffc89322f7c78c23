//! Nodes, and reading one from its state file.
ghost use Rattle.std.specs.Prelude.{◌≡◌, ◌++◌, ◌==◌, ◌≤ℤ◌, ◌^◌, [], None, not, IfErr, IfOk, List, Result, length, map, option_map, pos};
ghost use Rattle.kat_design.specs.Denotations.{natural};
ghost use Rattle.kat_design.specs.Designs.{DesignForm, component_form, design_form};
ghost use Rattle.kat_design.specs.Faults.{Path, each_faults, first_of, here_if};
ghost use Rattle.kat_design.specs.Sorted.{EachHas, IsWellSorted};
ghost use Rattle.kat_replica.specs.Starting.{HasStarts};
ghost use Rattle.kat_json.specs.Refused.{IsRefused, IsSaid};
ghost use Rattle.kat_json.specs.Texts.{IsJson};
ghost use Rattle.serde_json.specs.View.{view};
ghost use Rattle.kat_node.specs.NodeFiles.{IsNodeRefusal, IsNodeText, IsRefusalOf, has_version, is_one, is_state, refusal_of};
ghost use Rattle.kat_node.specs.Possible.{node_made, pair_faults, parts_made, possible_faults};
ghost use Rattle.kat_node.specs.StateForms.{node_said, zipped};
ghost use Rattle.kat_node.specs.declared.errors.NodeError.TheVariants.{BadState, Form};
ghost use Rattle.kat_json.specs.Words.{whole_of};

use crate::errors::NodeError;
use crate::judging::in_range;
use crate::reading::node_stated;
use crate::stated::{NodeStated, Stated};
use crate::states::parts_made;
use kat_design::{Component, Design, Part, State};
use kat_json::forms::{here, within};
use kat_json::values::{tag, whole};
use kat_json::{WireError, elements_of, parsed};
use kat_num::Items;
use kat_replica::Replica;
use serde_json::Value;
use std::alloc::Global;

/// A replica with its number, from 1 to 32.
#[derive(Drop)]
pub struct Node {
    pub number: u32,
    pub replica: Replica,
}

/// Reads the state file of a replica of the design.
///
/// The refusals come in this order: no JSON; a list that doesn't begin with `"state"`, which is a bad form without a place; a
/// version other than 1; a bad form; a state that no replica of the design has. A place is the first one, in the order of the
/// text, that is missing, doesn't have the form or can't be.
pub fn read_node(alloc: Global, bytes: &[u8], design: &Design) -> Result<Node, NodeError>
    requires sorted { IsWellSorted (design_form design.now) }
    ensures read { IfOk result (IsNodeText (design_form design.now) bytes.now) }
    ensures refused { IfErr result (IsNodeRefusal (design_form design.now) bytes.now) }
{
    let value = json_value(alloc, bytes)?;
    let node = accepted(alloc, design.components.as_slice(), elements_of(&value))?;
    Ok(node)
}

/// The value of a JSON text.
fn json_value(alloc: Global, bytes: &[u8]) -> Result<Value, NodeError>
    ensures json { IfOk result (λ value. IsJson bytes.now (view value)) }
    ensures refused { (d : DesignForm) → IfErr result (IsNodeRefusal d bytes.now) }
{
    match parsed(alloc, bytes) {
        Ok(value) => Ok(value),
        Err(WireError::Memory) => Err(NodeError::Memory),
        Err(_) => Err(NodeError::Json),
    }
}

/// The node of a file with these parts.
fn accepted(alloc: Global, components: &[Component], parts: &[Value]) -> Result<Node, NodeError>
    requires { EachHas HasStarts (map component_form components.now) }
    ensures accepted { IfOk result (λ _. refusal_of (map component_form components.now) (map view parts.now) ≡ None) }
    ensures said { IfOk result (λ node. node ≡ node_made (map component_form components.now)
        (node_said (map component_form components.now) (map view parts.now))) }
    ensures refused { IfErr result (IsRefusalOf (refusal_of (map component_form components.now) (map view parts.now))) }
{
    if !is_state(parts) {
        return Err(NodeError::Form(Items::from_vec(Vec::new(alloc))));
    }
    if !has_version(parts) {
        return Err(NodeError::Version);
    }
    let stated = formed(node_stated(alloc, components, parts))?;
    let node = possible(node_made(alloc, components, &stated))?;
    Ok(node)
}

/// Whether the first part is `"state"`.
fn is_state(parts: &[Value]) -> bool
    ensures { result ≡ is_state (map view parts.now) }
{
    tag(parts) == "state"
}

/// Whether the second part is 1.
fn has_version(parts: &[Value]) -> bool
    ensures { result ≡ has_version (map view parts.now) }
{
    match parts.get(1) {
        Some(value) => is_one(value),
        None => false,
    }
}

fn is_one(value: &Value) -> bool
    ensures { result ≡ is_one (whole_of (view value.now)) }
{
    match whole(value) {
        Some(number) => number == 1,
        None => false,
    }
}

/// What has the form, or the refusal by form.
fn formed<T: Drop>(read: Result<T, WireError>) -> Result<T, NodeError>
    ensures ok { IfOk result (λ item. read ≡ Result.Ok item) }
    ensures err { (faults : List Path) → IfErr read (IsRefused faults) → IfErr result (IsRefusalOf (option_map Form (first_of faults))) }
{
    match read {
        Ok(item) => Ok(item),
        Err(WireError::Form(place)) => Err(NodeError::Form(place)),
        Err(_) => Err(NodeError::Memory),
    }
}

/// What can be, or the refusal of what can't.
fn possible<T: Drop>(read: Result<T, WireError>) -> Result<T, NodeError>
    ensures ok { IfOk result (λ item. read ≡ Result.Ok item) }
    ensures err { (faults : List Path) → IfErr read (IsRefused faults)
        → IfErr result (IsRefusalOf (option_map BadState (first_of faults))) }
{
    match read {
        Ok(item) => Ok(item),
        Err(WireError::Form(place)) => Err(NodeError::BadState(place)),
        Err(_) => Err(NodeError::Memory),
    }
}

/// The node that is said, if it is a possible one.
fn node_made(
    alloc: Global,
    components: &[Component],
    stated: &NodeStated,
) -> Result<Node, WireError>
    requires { EachHas HasStarts (map component_form components.now) }
    ensures said { IfOk result
        (IsSaid (possible_faults (map component_form components.now) stated.now)
        (node_made (map component_form components.now) stated.now)) }
    ensures refused { IfErr result (IsRefused (possible_faults (map component_form components.now) stated.now)) }
{
    let parts = state_made(alloc, components, stated)?;
    Ok(Node {
        number: replica_made(&stated.number),
        replica: Replica {
            clock: clock_made(&stated.clock),
            state: State {
                parts: Items::from_vec(parts),
            },
        },
    })
}

/// A replica's number in its range.
pub(crate) fn replica_made(replica: &i128) -> u32
    requires least { pos 1 ≤ℤ replica.now }
    requires most { replica.now ≤ℤ pos 32 }
    ensures { result ≡ natural replica.now }
{
    *replica as u32
}

/// A clock in its range.
fn clock_made(clock: &i128) -> u64
    requires least { pos 0 ≤ℤ clock.now }
    requires most { clock.now ≤ℤ pos (10 ^ 9) }
    ensures { result ≡ natural clock.now }
{
    *clock as u64
}

/// The parts of the state that is said, if the number, the clock and the parts are possible ones.
fn state_made(
    alloc: Global,
    components: &[Component],
    node: &NodeStated,
) -> Result<Vec<Part>, WireError>
    requires { EachHas HasStarts (map component_form components.now) }
    ensures said { IfOk result
        (λ made. IsSaid (possible_faults (map component_form components.now) node.now)
        (parts_made (map component_form components.now) node.now.parts) made.items) }
    ensures refused { IfErr result (IsRefused (possible_faults (map component_form components.now) node.now)) }
{
    within(alloc, 2, in_range(alloc, 1, 32, &node.number))?;
    within(alloc, 3, in_range(alloc, 0, 1_000_000_000, &node.clock))?;
    let parts = within(
        alloc,
        4,
        counted_parts(alloc, components, node.count, node.parts.as_slice()),
    )?;
    Ok(parts)
}

/// As many parts as components.
fn counted_parts(
    alloc: Global,
    components: &[Component],
    count: usize,
    parts: &[Stated],
) -> Result<Vec<Part>, WireError>
    requires { EachHas HasStarts (map component_form components.now) }
    ensures said { IfOk result (λ made. IsSaid (here_if (not (count == length (map component_form components.now)))
        ++ each_faults pair_faults 0 (zipped (map component_form components.now) parts.now))
        (parts_made (map component_form components.now) parts.now) made.items) }
    ensures refused { IfErr result (IsRefused (here_if (not (count == length (map component_form components.now)))
        ++ each_faults pair_faults 0 (zipped (map component_form components.now) parts.now))) }
{
    if count != components.len() {
        return Err(here(alloc));
    }
    parts_made(alloc, components, parts)
}

//! Writing state files.
ghost use Rattle.std.specs.Prelude.{◌≡◌, ◌∷◌, ◌++◌, [], IfOk, OnOk, codes, decimal, map};
ghost use Rattle.kat_num.specs.Names.{name_of_code};
ghost use Rattle.kat_num.specs.Values.{quoted};
ghost use Rattle.kat_design.specs.Designs.{DesignForm};
ghost use Rattle.kat_design.specs.Sorted.{EachHas};
ghost use Rattle.kat_replica.specs.Printing.{comma_before};
ghost use Rattle.kat_replica.specs.Texts.{listed};
ghost use Rattle.kat_node.specs.NodeFiles.{IsNodeText};
ghost use Rattle.kat_node.specs.Nodes.{IsNode};
ghost use Rattle.kat_node.specs.StateData.{node_text};
ghost use Rattle.kat_node.specs.Written.{IsWrittenPart};

use crate::nodes::Node;
use crate::written::spell;
use itoa::Buffer;
use kat_design::Part;
use kat_lattice::Tally;
use kat_num::{NAME_LIMIT, Value};
use kat_shape::Cell;
use std::alloc::{AllocError, Global};

/// The text of a node's state file: compact JSON and a newline. If the node is one of a design, it is read as this node.
///
/// The numbers of its state have 64 bits, and each name has the code of one.
pub fn write_node(alloc: Global, node: &Node) -> Result<Vec<u8>, AllocError>
    requires { EachHas IsWrittenPart node.now.replica.state.parts }
    ensures text { IfOk result (λ text. text.items ≡ node_text node.now) }
    ensures read { IfOk result (λ text. (d : DesignForm) → IsNode d node.now → IsNodeText d text.items node.now) }
{
    let mut text = head(alloc, node.number, node.replica.clock)?;
    push_list(node.replica.state.parts.as_slice(), &mut text)?;
    text.extend_from_slice(b"]\n")?;
    Ok(text)
}

/// The text of a state file before its state.
fn head(alloc: Global, number: u32, clock: u64) -> Result<Vec<u8>, AllocError>
    ensures { IfOk result (λ head. head.items ≡ codes "[\"state\",1," ++ (decimal number ++ 44 ∷ (decimal clock ++ 44 ∷ []))) }
{
    let head = format!(in alloc; "[\"state\",1,{number},{clock},")?;
    Ok(head.into_bytes())
}

/// What has a text in that of a state, as reports show it. It takes no memory except for the text.
trait Shown {
    ghost use Rattle.std.specs.Prelude.{ℕ, List};

    // the text
    ghost text: { Self → List ℕ };

    /// Appends the text.
    fn push(&self, into: &mut Vec<u8>) -> Result<(), AllocError>
        ensures { OnOk result (into.new.items ≡ into.old.items ++ text self.now) };
}

/// Appends a list between brackets, with a comma between each two.
fn push_list<T: Shown>(items: &[T], into: &mut Vec<u8>) -> Result<(), AllocError>
    ensures { OnOk result (into.new.items ≡ into.old.items ++ listed (map T.text items.now)) }
{
    push_byte(b'[', into)?;
    for (place, item) in items.iter().enumerate() {
        push_comma(place, into)?;
        item.push(into)?;
    }
    push_byte(b']', into)
}

/// Appends a byte.
fn push_byte(byte: u8, into: &mut Vec<u8>) -> Result<(), AllocError>
    ensures { OnOk result (into.new.items ≡ into.old.items ++ byte ∷ []) }
{
    into.push(byte)?;
    Ok(())
}

/// Appends a comma, but not before the first element.
fn push_comma(place: usize, into: &mut Vec<u8>) -> Result<(), AllocError>
    ensures { OnOk result (into.new.items ≡ into.old.items ++ comma_before place) }
{
    if place == 0 {
        return Ok(());
    }
    push_byte(b',', into)
}

impl Shown for Value {
    ghost use Rattle.kat_num.specs.Values.{value_text};

    ghost text = { value_text };

    fn push(&self, into: &mut Vec<u8>) -> Result<(), AllocError> {
        match *self {
            Value::Bool(true) => into.extend_from_slice(b"true"),
            Value::Bool(false) => into.extend_from_slice(b"false"),
            Value::Num(number) => into.extend_from_slice(Buffer::new().format(number).as_bytes()),
            Value::Name(code) => push_quoted(code, into),
        }
    }
}

/// Appends a name between double quotes.
fn push_quoted(code: u128, into: &mut Vec<u8>) -> Result<(), AllocError>
    ensures { OnOk result (into.new.items ≡ into.old.items ++ quoted (name_of_code code)) }
{
    push_byte(b'"', into)?;
    push_name(code, into)?;
    push_byte(b'"', into)
}

/// Appends the name with this code.
fn push_name(code: u128, into: &mut Vec<u8>) -> Result<(), AllocError>
    ensures { OnOk result (into.new.items ≡ into.old.items ++ name_of_code code) }
{
    let mut room = [0; NAME_LIMIT];
    let length = spell(code, &mut room);
    into.extend_from_slice(&room[..length])
}

impl Shown for Cell {
    ghost use Rattle.kat_replica.specs.Texts.{cell_text};

    ghost text = { cell_text };

    fn push(&self, into: &mut Vec<u8>) -> Result<(), AllocError> {
        push_list(self.leaves(), into)
    }
}

impl Shown for (u32, u128) {
    ghost use Rattle.kat_replica.specs.Texts.{sum_text};

    ghost text = { sum_text };

    fn push(&self, into: &mut Vec<u8>) -> Result<(), AllocError> {
        push_byte(b'[', into)?;
        into.extend_from_slice(Buffer::new().format(self.0).as_bytes())?;
        push_byte(b',', into)?;
        into.extend_from_slice(Buffer::new().format(self.1).as_bytes())?;
        push_byte(b']', into)
    }
}

impl Shown for Tally {
    ghost use Rattle.kat_replica.specs.Texts.{tally_text};

    ghost text = { tally_text };

    fn push(&self, into: &mut Vec<u8>) -> Result<(), AllocError> {
        push_list(self.sums(), into)
    }
}

impl<V: Shown> Shown for (Value, V) {
    ghost use Rattle.kat_replica.specs.Texts.{entry_text};

    ghost text = { entry_text V.text };

    fn push(&self, into: &mut Vec<u8>) -> Result<(), AllocError> {
        push_byte(b'[', into)?;
        self.0.push(into)?;
        push_byte(b',', into)?;
        self.1.push(into)?;
        push_byte(b']', into)
    }
}

impl Shown for Part {
    ghost use Rattle.kat_replica.specs.Texts.{part_text};

    ghost text = { part_text };

    fn push(&self, into: &mut Vec<u8>) -> Result<(), AllocError> {
        match self {
            Part::Cell(cell) => cell.push(into),
            Part::Table(table) => push_list(table.entries(), into),
            Part::Set(keys) => push_list(keys.keys(), into),
            Part::Tally(sums) => sums.push(into),
            Part::Tallies(table) => push_list(table.entries(), into),
        }
    }
}

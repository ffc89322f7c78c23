//! Writing design files.
ghost use Rattle.std.specs.Prelude.{◌≡◌, ◌<◌, [], IfOk, map, ◌∷◌, ◌^◌};
ghost use Rattle.kat_design.specs.Designs.{design_form};
ghost use Rattle.kat_design.specs.Faults.{faults_of};
ghost use Rattle.kat_wire.specs.FileForms.{AreOfVersion, IsVersion, HaveNoZero, file_form, HasOnlyIndices, IsIndex, HasIndices, IsFileMultiplier};
ghost use Rattle.kat_wire.specs.Files.{IsFileText, AreNumbered};
ghost use Rattle.kat_design_json.specs.Signatures.{IsSignature};
ghost use Rattle.kat_wire.specs.Printed.{hints_data, file_text, earlier_data, file_data, relation_data, conjunct_data, ref_data, refs_data, proof_data, lines_data, line_data, passed_over_data, cause_data};
ghost use Rattle.kat_design.specs.Sorted.{EachHas};
ghost use Rattle.serde_json.specs.View.{view};
ghost use Rattle.kat_wire.specs.WrittenParts.{HasSizedNumbers, Is32Bits};
ghost use Rattle.kat_json.specs.Lists.{list};
ghost use Rattle.kat_relation.specs.declared.relations.Conjunct.TheVariants.{AtLeast, Matched};
ghost use Rattle.serde_json.specs.Data.{string};
ghost use Rattle.kat_json.specs.Printed.{natural, integers_data, integer_data};
ghost use Rattle.kat_refute.specs.Lines.{lines_of, line_of};

use crate::causes::Cause;
use crate::files::DesignFile;
use kat_design_json::{design_value, signature_value};
use kat_json::printing::{three, word};
use kat_num::Items;
use kat_refute::ProofLine;
use kat_relation::{Conjunct, LeafRef, Relation};
use serde_json::Value;
use std::alloc::{AllocError, Global};

/// The text of a design file: compact JSON and a newline. `earlier` has the number of each design that comes earlier in
/// the listing and was passed over, and why.
///
/// What is written is read again as the same file.
pub fn write_file(
    alloc: Global,
    file: &DesignFile,
    earlier: &[(u64, Cause)],
) -> Result<Vec<u8>, AllocError>
    requires signature { IsSignature file.now.design.sig }
    requires accepted { faults_of (design_form file.now.design) ≡ [] }
    requires literals { HaveNoZero (file_form file.now).proof }
    requires version { IsVersion file.now.version }
    requires lines { AreOfVersion file.now.version (file_form file.now).proof }
    ensures text { IfOk result (λ text. text.items ≡ file_text (file_form file.now) earlier.now) }
    ensures read { IfOk result (λ text. IsFileText text.items (file_form file.now)) }
{
    let value = file_value(alloc, file, earlier)?;
    let mut text = value.to_vec(alloc)?;
    text.push(b'\n')?;
    Ok(text)
}

fn file_value(
    alloc: Global,
    file: &DesignFile,
    earlier: &[(u64, Cause)],
) -> Result<Value, AllocError>
    requires signature { IsSignature file.now.design.sig }
    requires accepted { faults_of (design_form file.now.design) ≡ [] }
    ensures value { IfOk result (λ value. view value ≡ file_data (file_form file.now) (earlier_data earlier.now)) }
    ensures indices { IfOk result (λ _. EachHas HasOnlyIndices file.now.relation.conjuncts) }
    ensures lines { IfOk result (λ _. EachHas (EachHas HasSizedNumbers) (file_form file.now).proof) }
    ensures numbers { IfOk result (λ _. AreNumbered earlier.now) }
{
    let word = word(alloc, "katara")?;
    let version = Value::from(u32::from(file.version));
    let sig = signature_value(alloc, &file.design.sig)?;
    let design = design_value(alloc, &file.design)?;
    let relation = relation_value(alloc, &file.relation)?;
    let proof = proof_value(alloc, file.proof.as_slice())?;
    let earlier = earlier_value(alloc, earlier)?;
    Ok(Value::from(vec![in alloc; word, version, sig, design, relation, proof, earlier]?))
}

/// A relation.
fn relation_value(alloc: Global, relation: &Relation) -> Result<Value, AllocError>
    ensures value { IfOk result (λ value. view value ≡ relation_data relation.now.conjuncts) }
    ensures indices { IfOk result (λ _. EachHas HasOnlyIndices relation.now.conjuncts) }
{
    conjuncts_value(alloc, relation.conjuncts.as_slice())
}

fn conjuncts_value(alloc: Global, conjuncts: &[Conjunct]) -> Result<Value, AllocError>
    ensures value { IfOk result (λ value. view value ≡ list (map conjunct_data conjuncts.now)) }
    ensures indices { IfOk result (λ _. EachHas HasOnlyIndices conjuncts.now) }
{
    let mut values = Vec::with_capacity(alloc, conjuncts.len())?;
    for conjunct in conjuncts {
        let value = conjunct_value(alloc, conjunct)?;
        values.push(value)?;
    }
    Ok(Value::from(values))
}

fn conjunct_value(alloc: Global, conjunct: &Conjunct) -> Result<Value, AllocError>
    ensures value { IfOk result (λ value. view value ≡ conjunct_data conjunct.now) }
    ensures indices { IfOk result (λ _. HasOnlyIndices conjunct.now) }
{
    match conjunct {
        Conjunct::Query(query) => indexed_value(alloc, "q", *query),
        Conjunct::Equal { field, leaf } => {
            let word = word(alloc, "e")?;
            let field = index_value(*field);
            let leaf = ref_value(alloc, *leaf)?;
            Ok(Value::from(vec![in alloc; word, field, leaf]?))
        }
        Conjunct::Bounded { leaves, position } => {
            let word = word(alloc, "k")?;
            let leaves = refs_value(alloc, leaves.as_slice())?;
            let position = index_value(*position);
            Ok(Value::from(vec![in alloc; word, leaves, position]?))
        }
        Conjunct::AtLeast {
            leaf,
            position,
            digit,
        } => at_least_value(alloc, *leaf, *position, *digit),
        Conjunct::Matched {
            first,
            position,
            second,
            later,
            digit,
        } => matched_value(alloc, *first, *position, *second, *later, *digit),
        Conjunct::Total(component) => indexed_value(alloc, "t", *component),
    }
}

/// A word and an index.
fn indexed_value(alloc: Global, tag: &str, index: u32) -> Result<Value, AllocError>
    ensures value { IfOk result (λ value. view value ≡ list (string tag.now ∷ natural index ∷ [])) }
    ensures index { IsIndex index }
{
    let word = word(alloc, tag)?;
    let index = index_value(index);
    Ok(Value::from(vec![in alloc; word, index]?))
}

fn at_least_value(
    alloc: Global,
    leaf: LeafRef,
    position: u32,
    digit: u32,
) -> Result<Value, AllocError>
    ensures value { IfOk result (λ value. view value ≡ conjunct_data (AtLeast leaf position digit)) }
    ensures indices { HasOnlyIndices (AtLeast leaf position digit) }
{
    let word = word(alloc, "b")?;
    let leaf = ref_value(alloc, leaf)?;
    let position = index_value(position);
    let digit = index_value(digit);
    Ok(Value::from(vec![in alloc; word, leaf, position, digit]?))
}

fn matched_value(
    alloc: Global,
    first: LeafRef,
    position: u32,
    second: LeafRef,
    later: u32,
    digit: u32,
) -> Result<Value, AllocError>
    ensures value { IfOk result (λ value. view value ≡ conjunct_data (Matched first position second later digit)) }
    ensures indices { HasOnlyIndices (Matched first position second later digit) }
{
    let word = word(alloc, "c")?;
    let first = ref_value(alloc, first)?;
    let position = index_value(position);
    let second = ref_value(alloc, second)?;
    let later = index_value(later);
    let digit = index_value(digit);
    Ok(Value::from(vec![in alloc; word, first, position, second, later, digit]?))
}

fn index_value(index: u32) -> Value
    ensures value { view result ≡ natural index }
    ensures index { IsIndex index }
{
    Value::from(index)
}

/// A leaf of a component.
fn ref_value(alloc: Global, leaf: LeafRef) -> Result<Value, AllocError>
    ensures value { IfOk result (λ value. view value ≡ ref_data leaf) }
    ensures indices { HasIndices leaf }
{
    let component = index_value(leaf.component);
    let leaf = index_value(leaf.leaf);
    Ok(Value::from(vec![in alloc; component, leaf]?))
}

fn refs_value(alloc: Global, leaves: &[LeafRef]) -> Result<Value, AllocError>
    ensures value { IfOk result (λ value. view value ≡ refs_data leaves.now) }
    ensures indices { IfOk result (λ _. EachHas HasIndices leaves.now) }
{
    let mut values = Vec::with_capacity(alloc, leaves.len())?;
    for leaf in leaves {
        let value = ref_value(alloc, *leaf)?;
        values.push(value)?;
    }
    Ok(Value::from(values))
}

/// A proof: lists of lines.
fn proof_value(alloc: Global, lists: &[Items<ProofLine>]) -> Result<Value, AllocError>
    ensures value { IfOk result (λ value. view value ≡ proof_data (map lines_of lists.now)) }
    ensures lines { IfOk result (λ _. EachHas (EachHas HasSizedNumbers) (map lines_of lists.now)) }
{
    let mut values = Vec::with_capacity(alloc, lists.len())?;
    for lines in lists {
        let value = lines_value(alloc, lines.as_slice())?;
        values.push(value)?;
    }
    Ok(Value::from(values))
}

fn lines_value(alloc: Global, lines: &[ProofLine]) -> Result<Value, AllocError>
    ensures value { IfOk result (λ value. view value ≡ lines_data (lines_of lines.now)) }
    ensures lines { IfOk result (λ _. EachHas HasSizedNumbers (lines_of lines.now)) }
{
    let mut values = Vec::with_capacity(alloc, lines.len())?;
    for line in lines {
        let value = line_value(alloc, line)?;
        values.push(value)?;
    }
    Ok(Value::from(values))
}

fn line_value(alloc: Global, line: &ProofLine) -> Result<Value, AllocError>
    ensures value { IfOk result (λ value. view value ≡ line_data (line_of line.now)) }
    ensures numbers { IfOk result (λ _. HasSizedNumbers (line_of line.now)) }
{
    match line {
        ProofLine::Rup(lits) => {
            let word = word(alloc, "r")?;
            let literals = literals_value(alloc, lits)?;
            Ok(Value::from(vec![in alloc; word, literals]?))
        }
        ProofLine::Hinted { lits, hints } => {
            let literals = literals_value(alloc, lits)?;
            let hints = hints_value(alloc, hints)?;
            three(alloc, "r", literals, hints)
        }
        ProofLine::Linear { lits, multipliers } => {
            let literals = literals_value(alloc, lits)?;
            let multipliers = multipliers_value(alloc, multipliers)?;
            three(alloc, "l", literals, multipliers)
        }
    }
}

fn literals_value(alloc: Global, literals: &[i32]) -> Result<Value, AllocError>
    ensures value { IfOk result (λ value. view value ≡ integers_data literals.now) }
    ensures numbers { IfOk result (λ _. EachHas Is32Bits literals.now) }
{
    let mut values = Vec::with_capacity(alloc, literals.len())?;
    for literal in literals {
        let value = literal_value(*literal);
        values.push(value)?;
    }
    Ok(Value::from(values))
}

fn literal_value(literal: i32) -> Value
    ensures value { view result ≡ integer_data literal }
    ensures number { Is32Bits literal }
{
    Value::from(literal)
}

fn hints_value(alloc: Global, hints: &[u32]) -> Result<Value, AllocError>
    ensures value { IfOk result (λ value. view value ≡ hints_data hints.now) }
    ensures numbers { IfOk result (λ _. EachHas IsIndex hints.now) }
{
    let mut values = Vec::with_capacity(alloc, hints.len())?;
    for hint in hints {
        let value = index_value(*hint);
        values.push(value)?;
    }
    Ok(Value::from(values))
}

fn multipliers_value(alloc: Global, multipliers: &[i64]) -> Result<Value, AllocError>
    ensures value { IfOk result (λ value. view value ≡ integers_data multipliers.now) }
    ensures numbers { IfOk result (λ _. EachHas IsFileMultiplier multipliers.now) }
{
    let mut values = Vec::with_capacity(alloc, multipliers.len())?;
    for multiplier in multipliers {
        let value = multiplier_value(*multiplier);
        values.push(value)?;
    }
    Ok(Value::from(values))
}

fn multiplier_value(multiplier: i64) -> Value
    ensures value { view result ≡ integer_data multiplier }
    ensures number { IsFileMultiplier multiplier }
{
    Value::from(multiplier)
}

/// The designs that were passed over.
fn earlier_value(alloc: Global, earlier: &[(u64, Cause)]) -> Result<Value, AllocError>
    ensures value { IfOk result (λ value. view value ≡ earlier_data earlier.now) }
    ensures numbers { IfOk result (λ _. AreNumbered earlier.now) }
{
    let mut values = Vec::with_capacity(alloc, earlier.len())?;
    for item in earlier {
        let value = passed_over_value(alloc, item.0, item.1)?;
        values.push(value)?;
    }
    Ok(Value::from(values))
}

fn passed_over_value(alloc: Global, number: u64, cause: Cause) -> Result<Value, AllocError>
    ensures value { IfOk result (λ value. view value ≡ passed_over_data (number, cause)) }
    ensures number { number < 2 ^ 64 }
{
    let number = Value::from(number);
    let cause = cause_value(alloc, cause)?;
    Ok(Value::from(vec![in alloc; number, cause]?))
}

fn cause_value(alloc: Global, cause: Cause) -> Result<Value, AllocError>
    ensures { IfOk result (λ value. view value ≡ cause_data cause) }
{
    match cause {
        Cause::OpenCert => word(alloc, "open"),
        Cause::Spent => word(alloc, "spent"),
        Cause::Rows => word(alloc, "rows"),
        Cause::Wide => word(alloc, "wide"),
        Cause::Long => word(alloc, "long"),
    }
}

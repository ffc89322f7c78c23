//! Reading design files.
ghost use Rattle.std.specs.Prelude.{◌≡◌, [], IfErr, IfOk, None, Some, map, option_map, ◌++◌, List};
ghost use Rattle.kat_design.specs.Designs.{design_form};
ghost use Rattle.kat_design.specs.Faults.{faults_of, first_of};
ghost use Rattle.kat_wire.specs.FileForms.{AreOfVersion, IsVersion, HaveNoZero, file_form};
ghost use Rattle.kat_wire.specs.Files.{IsFileRefusal, IsFileText, IsWrittenFile, is_katara, refusal_of};
ghost use Rattle.kat_design_json.specs.Signatures.{IsSignature};
ghost use Rattle.kat_wire.specs.Versions.{version_in, version_of, version_said};
ghost use Rattle.kat_wire.specs.Words.{line_words};
ghost use Rattle.kat_json.specs.Words.{whole_of};
ghost use Rattle.std.specs.Prelude.{option_and_then};
ghost use Rattle.kat_wire.specs.Builtins.{builtin_file, builtin_of};
ghost use Rattle.kat_json.specs.Lists.{elements_of};
ghost use Rattle.serde_json.specs.View.{view};
ghost use Rattle.kat_wire.specs.FileParts.{file_said, design_said, proof_said, relation_said};
ghost use Rattle.kat_wire.specs.Refused.{IsRefusalOf};
ghost use Rattle.kat_json.specs.declared.errors.WireError.TheVariants.{BadDesign, Memory};
ghost use Rattle.kat_wire.specs.FileFaults.{file_faults, rest_faults};
ghost use Rattle.kat_json.specs.Refused.{IsRefused, IsSaid};
ghost use Rattle.kat_design_json.specs.DesignFaults.{design_faults, signature_faults};
ghost use Rattle.kat_json.specs.FormFaults.{part_faults};
ghost use Rattle.kat_refute.specs.Lines.{Line, lines_of};
ghost use Rattle.kat_relation.specs.declared.relations.Conjunct.{Conjunct};
ghost use Rattle.kat_json.specs.Parts.{part_said};

use crate::builtin::{Builtin, builtin_design, builtin_of};
use crate::lines::proof_part;
use crate::lists::none;
use crate::relations::AnyConjunct;
use kat_design::Design;
use kat_design_json::{DesignBody, FileSignature};
use kat_json::forms::{AnyValue, ListOf, here, part, past};
use kat_json::seen::seen_part;
use kat_json::values::{tag, whole};
use kat_json::{WireError, elements_of, parsed};
use kat_num::Items;
use kat_refute::ProofLine;
use kat_relation::Relation;
use kat_sort_check::{DesignError, sort_check};
use serde_json::Value;
use std::alloc::{AllocError, Global};

/// What a design file says: a design that passes the sort check, a relation, and a proof, which is a list of lines for
/// each condition. Neither the relation nor the proof is judged further than for its form: `kat_check` does that.
pub struct DesignFile {
    /// 1 or 2.
    pub version: u8,
    pub design: Design,
    pub relation: Relation,
    pub proof: Items<Items<ProofLine>>,
}

impl Drop for DesignFile {
    fn drop(self) {
        let Self {
            version: _,
            design: _,
            relation: _,
            proof: _,
        } = self;
    }
}

impl DesignFile {
    /// Its design alone.
    pub fn into_design(self) -> Design
        ensures { result ≡ self.design }
    {
        let Self {
            version: _,
            design,
            relation: _,
            proof: _,
        } = self;
        design
    }
}

/// Reads a design file: a JSON text, or the text of a design that is built in.
///
/// The refusals come in this order: no JSON; a list that doesn't begin with `"katara"`, which is a bad form without a place;
/// a version other than 1 and 2; a bad form; a bad design. A place is the first one, in the order of the text, that is
/// missing, doesn't have the form or breaks a rule of designs; 2, 0 is the list of operations.
pub fn read_file(alloc: Global, bytes: &[u8]) -> Result<DesignFile, WireError>
    ensures read { IfOk result (λ file. IsFileText bytes.now (file_form file)) }
    ensures refused { IfErr result (IsFileRefusal bytes.now) }
    ensures signature { IfOk result (λ file. IsSignature file.design.sig) }
    ensures accepted { IfOk result (λ file. faults_of (design_form file.design) ≡ []) }
    ensures literals { IfOk result (λ file. HaveNoZero (file_form file).proof) }
    ensures version { IfOk result (λ file. IsVersion file.version) }
    ensures lines { IfOk result (λ file. AreOfVersion file.version (file_form file).proof) }
{
    read_text(alloc, bytes)
}

fn read_text(alloc: Global, bytes: &[u8]) -> Result<DesignFile, WireError>
    ensures read { IfOk result (λ file. IsFileText bytes.now (file_form file)) }
    ensures refused { IfErr result (IsFileRefusal bytes.now) }
{
    match builtin_of(bytes) {
        Some(builtin) => {
            let file = builtin_file(alloc, builtin)?;
            Ok(file)
        }
        None => read_json(alloc, bytes),
    }
}

/// The file of a design that is built in.
fn builtin_file(alloc: Global, builtin: Builtin) -> Result<DesignFile, AllocError>
    ensures { IfOk result (λ file. file_form file ≡ builtin_file builtin) }
{
    let design = builtin_design(alloc, builtin)?;
    let relation = Relation {
        conjuncts: none(alloc),
    };
    Ok(DesignFile {
        version: 1,
        design,
        relation,
        proof: none(alloc),
    })
}

/// Reads a JSON text.
fn read_json(alloc: Global, bytes: &[u8]) -> Result<DesignFile, WireError>
    requires { builtin_of bytes.now ≡ None }
    ensures read { IfOk result (λ file. IsWrittenFile bytes.now (file_form file)) }
    ensures refused { IfErr result (IsFileRefusal bytes.now) }
{
    let value = parsed(alloc, bytes)?;
    let file = accepted(alloc, elements_of(&value))?;
    Ok(file)
}

/// The file with these parts, in which no rule is broken.
fn accepted(alloc: Global, parts: &[Value]) -> Result<DesignFile, WireError>
    ensures read { IfOk result (λ file. (refusal_of (map view parts.now) ≡ None) × (file_form file ≡ file_said (map view parts.now))) }
    ensures refused { IfErr result (IsRefusalOf (refusal_of (map view parts.now))) }
{
    if !is_katara(parts) {
        return Err(here(alloc));
    }
    let Some(version) = version(parts) else {
        return Err(WireError::Version);
    };
    let file = file(alloc, version, parts)?;
    checked(alloc, file)
}

/// Whether the first part is `"katara"`.
fn is_katara(parts: &[Value]) -> bool
    ensures { result ≡ is_katara (map view parts.now) }
{
    tag(parts) == "katara"
}

/// The version: the second part.
fn version(parts: &[Value]) -> Option<u8>
    ensures { result ≡ version_of (map view parts.now) }
{
    match parts.get(1) {
        Some(value) => version_of_value(value),
        None => None,
    }
}

fn version_of_value(value: &Value) -> Option<u8>
    ensures { result ≡ option_and_then version_in (whole_of (view value.now)) }
{
    version_in(whole(value)?)
}

fn version_in(number: i128) -> Option<u8>
    ensures { result ≡ version_in number }
{
    match number {
        1 => Some(1),
        2 => Some(2),
        _ => None,
    }
}

/// The file, if its design passes the sort check.
fn checked(alloc: Global, file: DesignFile) -> Result<DesignFile, WireError>
    ensures same { IfOk result (λ same. (faults_of (design_form file.design) ≡ []) × (same ≡ file)) }
    ensures refused { IfErr result (IsRefusalOf (option_map BadDesign (first_of (faults_of (design_form file.design))))) }
{
    match sort_check(alloc, &file.design) {
        Ok(()) => Ok(file),
        Err(DesignError::BadDesign(place)) => Err(WireError::BadDesign(place)),
        Err(DesignError::Memory) => Err(WireError::Memory),
    }
}

/// The file of a version with these parts.
fn file(alloc: Global, version: u8, parts: &[Value]) -> Result<DesignFile, WireError>
    requires { version ≡ version_said (map view parts.now) }
    ensures said { IfOk result (λ file. IsSaid (file_faults (map view parts.now)) (file_said (map view parts.now)) (file_form file)) }
    ensures refused { IfErr result (IsRefused (file_faults (map view parts.now))) }
{
    let design = design(alloc, parts)?;
    let (relation, proof) = rest(alloc, version, parts)?;
    Ok(DesignFile {
        version,
        design,
        relation,
        proof,
    })
}

/// The design of a file with these parts.
fn design(alloc: Global, parts: &[Value]) -> Result<Design, WireError>
    ensures said { IfOk result (λ design. IsSaid (part_faults signature_faults 2 (map view parts.now)
        ++ part_faults design_faults 3 (map view parts.now)) (design_said (map view parts.now)) (design_form design)) }
    ensures refused { IfErr result (IsRefused (part_faults signature_faults 2 (map view parts.now)
        ++ part_faults design_faults 3 (map view parts.now))) }
{
    let sig = part::<FileSignature>(alloc, parts, 2)?;
    let (components, asks) = seen_part(alloc, &DesignBody, parts, 3)?;
    Ok(Design {
        sig,
        components,
        asks,
    })
}

/// What comes after the design: a relation, a proof, and any value.
fn rest(
    alloc: Global,
    version: u8,
    parts: &[Value],
) -> Result<(Relation, Items<Items<ProofLine>>), WireError>
    requires { version ≡ version_said (map view parts.now) }
    ensures said { IfOk result (λ rest. IsSaid {A = List Conjunct
        × List (List Line)} (rest_faults (map view parts.now)) (
          part_said relation_said 4 (map view parts.now),
          part_said (proof_said (line_words (version_said (map view parts.now)))) 5
              (map view parts.now),
        ) (rest.0.conjuncts, map lines_of rest.1)) }
    ensures refused { IfErr result (IsRefused (rest_faults (map view parts.now))) }
{
    let conjuncts = part::<ListOf<AnyConjunct>>(alloc, parts, 4)?;
    let proof = proof_part(alloc, version, parts, 5)?;
    part::<AnyValue>(alloc, parts, 6)?;
    past(alloc, parts, 7)?;
    Ok((Relation { conjuncts }, proof))
}

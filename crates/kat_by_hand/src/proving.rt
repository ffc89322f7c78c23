//! Proving one design.
ghost use Rattle.std.specs.Prelude.{◌≡◌, ◌≤◌, [], IfOk};
ghost use Rattle.kat_design.specs.Designs.{design_form};
ghost use Rattle.kat_design.specs.Faults.{faults_of};
ghost use Rattle.kat_design_json.specs.Signatures.{IsSignature};
ghost use Rattle.kat_type.specs.Signatures.{signature_of};
ghost use Rattle.kat_type.specs.Types.{type_form};
ghost use Rattle.kat_by_hand.specs.Answers.{IsProof};

use crate::files::file_of;
use crate::relating::{Blocked, Related, relate};
use kat_design::Design;
use kat_type::SeqType;
use std::alloc::{AllocError, Global};

/// What comes of the search for a proof.
#[derive(Drop)]
pub enum Proof {
    /// The design is proved, and this is its file.
    File(Vec<u8>),
    /// It isn't proved, for what is in the way.
    Unproved(Blocked),
    /// It is proved, but has no file: it would have more bytes than a file may have.
    Long,
}

/// Proves a design, with at most `effort` leaves for each condition, and writes its file.
///
/// The design passes the sort check, and its signature is the type's, which can be written in a design file.
pub fn prove_design(
    alloc: Global,
    ty: &SeqType,
    design: Design,
    effort: u32,
) -> Result<Proof, AllocError>
    requires signature { IsSignature (signature_of (type_form ty.now)) }
    requires effort { (1 ≤ effort) × (effort ≤ 10_000) }
    requires accepted { faults_of (design_form design) ≡ [] }
    requires agrees { signature_of (type_form ty.now) ≡ design.sig }
    ensures proof { IfOk result (IsProof (type_form ty.now) (design_form design)) }
{
    match relate(alloc, ty, &design, effort)? {
        Related::Proved { relation, proof } => file_of(alloc, ty, design, relation, proof),
        Related::Unproved(blocked) => Ok(Proof::Unproved(blocked)),
    }
}

//! Migrating a file: its lines by propagation get hints.
ghost use Rattle.std.specs.Prelude.{◌≡◌, IfOk, OnOk, map, length};
ghost use Rattle.kat_design.specs.Sorted.{EachHas};
ghost use Rattle.kat_refute.specs.Lines.{lines_of};
ghost use Rattle.kat_type.specs.Signatures.{signature_of};
ghost use Rattle.kat_type.specs.Types.{type_form};
ghost use Rattle.kat_wire.specs.FileForms.{file_form};
ghost use Rattle.kat_check.specs.Acceptance.{Fits, encoding_at};
ghost use Rattle.kat_check.specs.Migration.{IsHinting, IsMigrated, hinted_lists};

use crate::acceptance::{LINE_LIMIT, conditions_of, first_unfit};
use kat_num::Items;
use kat_refute::{ProofLine, Verdict, add_hints, check_lines};
use kat_type::SeqType;
use kat_vc::condition;
use kat_wire::DesignFile;
use std::alloc::{AllocError, Global};

/// What is answered of a design file that must be migrated.
#[derive(Drop)]
pub enum Migrated {
    /// The file in version 2.
    Done(DesignFile),
    /// The first fault of a file that isn't accepted, as [`Checked::Refused`](crate::Checked) has it.
    Refused { condition: u32, line: u32 },
}

/// Migrates a design file to version 2: the design and the relation stay, and each line by propagation without hints gets the
/// hints that are found for it. A file that isn't accepted is refused with its first fault.
///
/// One condition is in memory at a time, and the new file. The limits are those of [`check`](crate::check).
pub fn migrate(alloc: Global, ty: &SeqType, file: &DesignFile) -> Result<Migrated, AllocError>
    requires { signature_of (type_form ty.now) ≡ file.now.design.sig }
    ensures { IfOk result (IsMigrated (type_form ty.now) (file_form file.now)) }
{
    match first_unfit(alloc, ty, file)? {
        Some(number) => Ok(Migrated::Refused {
            condition: 0,
            line: number,
        }),
        None => migrate_conditions(alloc, ty, file),
    }
}

/// Adds hints for each condition, if all conjuncts fit.
fn migrate_conditions(
    alloc: Global,
    ty: &SeqType,
    file: &DesignFile,
) -> Result<Migrated, AllocError>
    requires { EachHas (Fits (type_form ty.now) (file_form file.now)) file.now.relation.conjuncts }
    ensures { IfOk result (IsMigrated (type_form ty.now) (file_form file.now)) }
{
    let count = conditions_of(ty, &file.relation)?;
    let lists = file.proof.as_slice();
    let mut hinted = Vec::new(alloc);
    for i in 0..count {
        let k = i + 1;
        let Some(lines) = lists.get(i as usize) else {
            return Ok(Migrated::Refused {
                condition: k,
                line: 1,
            });
        };
        match hint_condition(alloc, ty, file, k, lines.as_slice())? {
            Hinting::Hinted(lines) => hinted.push(lines)?,
            Hinting::Bad(line) => return Ok(Migrated::Refused { condition: k, line }),
        }
    }
    if lists.len() > count as usize {
        return Ok(Migrated::Refused {
            condition: count + 1,
            line: 1,
        });
    }
    Ok(Migrated::Done(second_version(alloc, file, Items::from_vec(hinted))?))
}

/// The file in version 2 with another proof.
fn second_version(
    alloc: Global,
    file: &DesignFile,
    proof: Items<Items<ProofLine>>,
) -> Result<DesignFile, AllocError>
    ensures { IfOk result (λ new. file_form new ≡ record {
      version = 2;
      design = (file_form file.now).design;
      relation =
          (file_form file.now).relation;
      proof = map lines_of proof;
    }) }
{
    Ok(DesignFile {
        version: 2,
        design: file.design.copy(alloc)?,
        relation: file.relation.copy(alloc)?,
        proof,
    })
}

/// The lines of a condition with their hints, or the bad one among them.
#[derive(Drop)]
enum Hinting {
    Hinted(Items<ProofLine>),
    Bad(u32),
}

/// Adds hints to the lines of a condition by its number from 1.
fn hint_condition(
    alloc: Global,
    ty: &SeqType,
    file: &DesignFile,
    k: u32,
    lines: &[ProofLine],
) -> Result<Hinting, AllocError>
    ensures { IfOk result (IsHinting (encoding_at (type_form ty.now) (file_form file.now) k) (lines_of lines.now)) }
{
    if lines.len() > LINE_LIMIT {
        return Err(AllocError);
    }
    let encoded = condition(alloc, ty, &file.design, &file.relation, k)?;
    if let Some(hinted) = add_hints(alloc, &encoded, lines)? {
        return Ok(Hinting::Hinted(Items::from_vec(hinted)));
    }
    match check_lines(alloc, &encoded, lines)? {
        Verdict::Bad(line) => Ok(Hinting::Bad(line)),
        Verdict::Accepted => unreachable!(),
    }
}

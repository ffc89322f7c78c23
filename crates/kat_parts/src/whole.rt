//! A design for the whole, made of one for each part.
ghost use Rattle.std.specs.Prelude.{◌≡◌, IfOk, IfSome};
ghost use Rattle.kat_type.specs.Signatures.{signature_of};
ghost use Rattle.kat_type.specs.Types.{type_form};

use crate::kinds::widened;
use crate::parts::Part;
use crate::shifts::shifted;
use kat_design::{Ask, Component, Design};
use kat_num::Items;
use kat_type::{SeqType, signature};
use std::alloc::{AllocError, Global};

/// A part with a design for its type.
pub struct Piece {
    pub part: Part,
    pub design: Design,
}

impl Drop for Piece {
    fn drop(self) {
        let Self { part: _, design: _ } = self;
    }
}

/// The design for a type that has the components of the parts' designs one after the other, and answers each query as the
/// design of its part does; `None` if a query is in no part.
pub fn put_together(
    alloc: Global,
    ty: &SeqType,
    pieces: &[Piece],
) -> Result<Option<Design>, AllocError>
    ensures signature { IfOk result (λ found. IfSome found (λ design. design.sig ≡ signature_of (type_form ty.now))) }
{
    let Some(asks) = asks_of(alloc, ty, pieces)? else {
        return Ok(None);
    };
    let sig = signature(alloc, ty)?;
    let components = components_of(alloc, ty.ops.as_slice().len(), pieces)?;
    Ok(Some(Design {
        sig,
        components: Items::from_vec(components),
        asks: Items::from_vec(asks),
    }))
}

/// The ask for each query; `None` if a query is in no part.
fn asks_of(alloc: Global, ty: &SeqType, pieces: &[Piece]) -> Result<Option<Vec<Ask>>, AllocError> {
    let mut asks = Vec::new(alloc);
    for (number, _) in ty.queries.as_slice().iter().enumerate() {
        match ask_of(alloc, pieces, number)? {
            Some(ask) => asks.push(ask)?,
            None => return Ok(None),
        }
    }
    Ok(Some(asks))
}

/// The components of all pieces, one after the other.
fn components_of(
    alloc: Global,
    ops: usize,
    pieces: &[Piece],
) -> Result<Vec<Component>, AllocError> {
    let mut components = Vec::new(alloc);
    for piece in pieces {
        for component in piece.design.components.as_slice() {
            components.push(widened(alloc, &piece.part, ops, component)?)?;
        }
    }
    Ok(components)
}

/// The ask for the query with a number.
fn ask_of(alloc: Global, pieces: &[Piece], query: usize) -> Result<Option<Ask>, AllocError> {
    let mut base: u32 = 0;
    for piece in pieces {
        if let Some(place) = place_in(&piece.part, query) {
            return match piece.design.asks.as_slice().get(place) {
                Some(ask) => Ok(Some(shifted(alloc, ask, base)?)),
                None => Ok(None),
            };
        }
        let count = piece.design.components.as_slice().len();
        base = base.saturating_add(u32::try_from(count).unwrap_or(u32::MAX));
    }
    Ok(None)
}

/// The place of a query in a part.
fn place_in(part: &Part, query: usize) -> Option<usize> {
    part.queries.iter().position(|own| *own as usize == query)
}

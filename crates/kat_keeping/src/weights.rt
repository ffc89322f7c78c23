//! What an operation brings, as multiples of leaves.

use kat_design::Leaf;
use kat_formulas::{Atom, Linear};
use kat_num::Sort;
use kat_reading::{Miss, push};
use kat_type::Param;
use std::alloc::{AllocError, Global};

/// So many times a leaf.
#[derive(Clone, Copy, PartialEq, Eq, Debug)]
pub struct Share {
    pub factor: i128,
    pub leaf: Leaf,
}

/// The shares of a linear combination of arguments. A signed argument has two, of what is above and of what is below 0, if
/// `apart`.
pub fn shares_of(
    alloc: Global,
    params: &[Param],
    linear: &Linear,
    apart: bool,
) -> Result<Vec<Share>, Miss> {
    let mut shares = Vec::new(alloc);
    for term in &linear.terms {
        let place = match term.atom {
            Atom::Arg(place) => place,
            Atom::Read { .. } => return Err(Miss::NoRule),
        };
        match params.get(place as usize) {
            Some(
                Param {
                    sort: Sort::Nat,
                    ..
                },
            ) => {
                push_share(&mut shares, term.factor, Leaf::Arg(place))?;
            }
            Some(
                Param {
                    sort: Sort::Int,
                    ..
                },
            ) => {
                push_signed(&mut shares, term.factor, place, apart)?;
            }
            _ => return Err(Miss::NoRule),
        }
    }
    if linear.constant != 0 {
        push_share(&mut shares, linear.constant, Leaf::One)?;
    }
    Ok(shares)
}

/// Appends a share.
fn push_share(shares: &mut Vec<Share>, factor: i128, leaf: Leaf) -> Result<(), AllocError> {
    push(shares, Share { factor, leaf })
}

/// Appends the shares of a signed argument.
fn push_signed(shares: &mut Vec<Share>, factor: i128, place: u32, apart: bool) -> Result<(), Miss> {
    if !apart {
        push_share(shares, factor, Leaf::Arg(place))?;
        return Ok(());
    }
    let Some(turned) = factor.checked_neg() else {
        return Err(Miss::NoRule);
    };
    push_share(shares, factor, Leaf::Pos(place))?;
    push_share(shares, turned, Leaf::Neg(place))?;
    Ok(())
}

/// The factors of all shares, each once.
pub fn factors_of(alloc: Global, all: &[Vec<Share>]) -> Result<Vec<i128>, AllocError> {
    let mut factors = Vec::new(alloc);
    for shares in all {
        for share in shares {
            if !factors.iter().any(|factor| *factor == share.factor) {
                push(&mut factors, share.factor)?;
            }
        }
    }
    Ok(factors)
}

/// The leaf of the share with a factor, so many of them being passed over.
pub fn leaf_with(shares: &[Share], factor: i128, passed: u32) -> Option<Leaf> {
    let mut left = passed;
    for share in shares {
        if share.factor == factor {
            if left == 0 {
                return Some(share.leaf);
            }
            left = left.saturating_sub(1);
        }
    }
    None
}

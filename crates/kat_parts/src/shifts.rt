//! Asks of a part's design, with the components' numbers in the whole.

use kat_design::Ask;
use std::alloc::{AllocError, Global};

/// The ask, of components whose numbers are greater by `base`.
pub(crate) fn shifted(alloc: Global, ask: &Ask, base: u32) -> Result<Ask, AllocError> {
    match ask {
        Ask::Leaf {
            component,
            leaf,
            key,
        } => Ok(Ask::Leaf {
            component: component.saturating_add(base),
            leaf: *leaf,
            key: *key,
        }),
        Ask::Arg(place) => Ok(Ask::Arg(*place)),
        Ask::Const(value) => Ok(Ask::Const(*value)),
        Ask::Not(inner) => {
            let inner = shifted(alloc, inner, base)?;
            Ok(Ask::Not(Box::new(alloc, inner)?))
        }
        Ask::And(left, right)
        | Ask::Or(left, right)
        | Ask::Less(left, right)
        | Ask::Plus(left, right)
        | Ask::Minus(left, right) => {
            let left = shifted(alloc, left, base)?;
            let right = shifted(alloc, right, base)?;
            joined(alloc, ask, left, right)
        }
    }
}

/// Two asks, joined as the two of another ask are; that is a difference, unless it is one of the others.
fn joined(alloc: Global, as_in: &Ask, left: Ask, right: Ask) -> Result<Ask, AllocError> {
    let left = Box::new(alloc, left)?;
    let right = Box::new(alloc, right)?;
    match as_in {
        Ask::And(..) => Ok(Ask::And(left, right)),
        Ask::Or(..) => Ok(Ask::Or(left, right)),
        Ask::Less(..) => Ok(Ask::Less(left, right)),
        Ask::Plus(..) => Ok(Ask::Plus(left, right)),
        _ => Ok(Ask::Minus(left, right)),
    }
}

//! All operations of a script in the canonical order, sorted once.
ghost use Rattle.std.specs.Prelude.{◌≡◌, ◌++◌, ◌∷◌, [], IfOk, OnOk};
ghost use Rattle.kat_script.specs.Facts.{done_in};
ghost use Rattle.kat_type.specs.Types.{type_form};
ghost use Rattle.kat_world.specs.Tracked.{IsOrder};

use kat_script::Line;
use kat_type::{Done, SeqType, canonical_order};
use std::alloc::{AllocError, Global};

/// The operations that lines do, by rank, then time, then replica.
pub(crate) fn operations_of(
    alloc: Global,
    ty: &SeqType,
    lines: &[Line],
) -> Result<Vec<Done>, AllocError>
    ensures { IfOk result (λ order. IsOrder (type_form ty.now) lines.now order.items) }
{
    let mut order = Vec::new(alloc);
    for line in lines {
        push_operation(alloc, &mut order, line)?;
    }
    order.sort_by(|left, right| canonical_order(ty, left, right))?;
    Ok(order)
}

/// Appends the operation of a line that does one.
fn push_operation(alloc: Global, order: &mut Vec<Done>, line: &Line) -> Result<(), AllocError>
    ensures { OnOk result (order.new.items ≡ order.old.items ++ done_in (line.now ∷ [])) }
{
    match line {
        Line::Do(done) => {
            order.push(done.copy(alloc)?)?;
            Ok(())
        }
        Line::Ship { .. } | Line::Deliver { .. } | Line::Ask { .. } | Line::Show { .. } => Ok(()),
    }
}

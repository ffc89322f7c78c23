//! The sections of the page on how a design works.
ghost use Rattle.std.specs.Prelude.{◌≡◌, ◌++◌, OnOk, map};
ghost use Rattle.kat_design.specs.Designs.{ask_form, component_form};
ghost use Rattle.kat_pseudocode.specs.Effects.{op_text};
ghost use Rattle.kat_pseudocode.specs.Asking.{query_text};
ghost use Rattle.kat_explain.specs.Sections.{all_keep, all_merge, each_keeps, each_merge, keeping_section, merging_section, operations_section, queries_section, section_mark, section_text};
ghost use Rattle.kat_pseudocode.specs.Texts.{each_from};
ghost use Rattle.kat_type.specs.Types.{operation_form, query_form};

use kat_design::Ask;
use kat_pseudocode::{Phrase, Scene, push_keeps, push_merge, push_op, push_query, say, text_at};
use kat_type::Query;
use std::alloc::{AllocError, Global};

/// What comes before the title of a section.
fn section_mark(as_markdown: bool) -> &'static [u8]
    ensures { result.now ≡ section_mark as_markdown }
{
    if as_markdown { b"\n## " } else { b"\n" }
}

/// Appends the title of a section.
pub(crate) fn push_section(
    as_markdown: bool,
    title: &[u8],
    into: &mut Vec<u8>,
) -> Result<(), AllocError>
    ensures { OnOk result (into.new.items ≡ into.old.items ++ section_text as_markdown title.now) }
{
    into.extend_from_slice(section_mark(as_markdown))?;
    into.extend_from_slice(title)?;
    into.extend_from_slice(b"\n\n")
}

/// Appends what each replica keeps.
pub(crate) fn push_keeping(
    alloc: Global,
    as_markdown: bool,
    scene: &Scene<'_>,
    into: &mut Vec<u8>,
) -> Result<(), AllocError>
    ensures { OnOk result (into.new.items ≡ into.old.items ++ keeping_section as_markdown
        (map operation_form scene.now.ops.now) scene.now.names.now (map component_form scene.now.components.now)) }
{
    push_section(as_markdown, say(Phrase::KeepsTitle), into)?;
    push_all_keep(alloc, scene, into)?;
    into.extend_from_slice(say(Phrase::TupleOrder))
}

fn push_all_keep(alloc: Global, scene: &Scene<'_>, into: &mut Vec<u8>) -> Result<(), AllocError>
    ensures { OnOk result (into.new.items ≡ into.old.items ++ all_keep (map operation_form scene.now.ops.now) scene.now.names.now
        (map component_form scene.now.components.now)) }
{
    match scene.components {
        [] => into.extend_from_slice(say(Phrase::KeepsNothing)),
        [_, ..] => push_each_keeps(alloc, scene, into),
    }
}

fn push_each_keeps(alloc: Global, scene: &Scene<'_>, into: &mut Vec<u8>) -> Result<(), AllocError>
    ensures { OnOk result (into.new.items ≡ into.old.items ++ each_keeps (map operation_form scene.now.ops.now) scene.now.names.now
        (map component_form scene.now.components.now)) }
{
    let mut place = 0;
    let mut rest = scene.components;
    'components: while let [component, behind @ ..] = rest {
        push_keeps(
            alloc,
            scene.ops,
            text_at(scene.names, place),
            component,
            into,
        )?;
        place += 1;
        rest = behind;
    }
    Ok(())
}

/// Appends what each operation does.
pub(crate) fn push_operations(
    alloc: Global,
    as_markdown: bool,
    scene: &Scene<'_>,
    into: &mut Vec<u8>,
) -> Result<(), AllocError>
    ensures { OnOk result (into.new.items ≡ into.old.items ++ operations_section as_markdown
        (map operation_form scene.now.ops.now) scene.now.names.now (map component_form scene.now.components.now)) }
{
    push_section(as_markdown, say(Phrase::DoesTitle), into)?;
    into.extend_from_slice(say(Phrase::TimeAndReplica))?;
    push_ops(alloc, scene, into)
}

fn push_ops(alloc: Global, scene: &Scene<'_>, into: &mut Vec<u8>) -> Result<(), AllocError>
    ensures { OnOk result (into.new.items ≡ into.old.items ++ each_from
        (op_text scene.now.names.now (map component_form scene.now.components.now)) 0 (map operation_form scene.now.ops.now)) }
{
    let mut place = 0;
    let mut rest = scene.ops;
    'ops: while let [op, behind @ ..] = rest {
        push_op(alloc, scene.names, scene.components, place, op, into)?;
        place += 1;
        rest = behind;
    }
    Ok(())
}

/// Appends how two states are merged.
pub(crate) fn push_merging(
    alloc: Global,
    as_markdown: bool,
    scene: &Scene<'_>,
    into: &mut Vec<u8>,
) -> Result<(), AllocError>
    ensures { OnOk result (into.new.items ≡ into.old.items ++ merging_section as_markdown
        (map operation_form scene.now.ops.now) scene.now.names.now (map component_form scene.now.components.now)) }
{
    push_section(as_markdown, say(Phrase::MergesTitle), into)?;
    push_all_merge(alloc, scene, into)
}

fn push_all_merge(alloc: Global, scene: &Scene<'_>, into: &mut Vec<u8>) -> Result<(), AllocError>
    ensures { OnOk result (into.new.items ≡ into.old.items ++ all_merge (map operation_form scene.now.ops.now) scene.now.names.now
        (map component_form scene.now.components.now)) }
{
    match scene.components {
        [] => into.extend_from_slice(say(Phrase::MergesNothing)),
        [_, ..] => push_each_merge(alloc, scene, into),
    }
}

fn push_each_merge(alloc: Global, scene: &Scene<'_>, into: &mut Vec<u8>) -> Result<(), AllocError>
    ensures { OnOk result (into.new.items ≡ into.old.items ++ each_merge (map operation_form scene.now.ops.now) scene.now.names.now
        (map component_form scene.now.components.now)) }
{
    let mut place = 0;
    let mut rest = scene.components;
    'components: while let [component, behind @ ..] = rest {
        push_merge(
            alloc,
            scene.ops,
            text_at(scene.names, place),
            component,
            into,
        )?;
        place += 1;
        rest = behind;
    }
    Ok(())
}

/// Appends how each query is answered.
pub(crate) fn push_queries(
    alloc: Global,
    as_markdown: bool,
    scene: &Scene<'_>,
    queries: &[Query],
    asks: &[Ask],
    into: &mut Vec<u8>,
) -> Result<(), AllocError>
    ensures { OnOk result (into.new.items ≡ into.old.items ++ queries_section as_markdown (map operation_form scene.now.ops.now)
        (map query_form queries.now) scene.now.names.now (map component_form scene.now.components.now) (map ask_form asks.now)) }
{
    push_section(as_markdown, say(Phrase::AnswersTitle), into)?;
    push_all_answers(alloc, scene, queries, asks, into)
}

fn push_all_answers(
    alloc: Global,
    scene: &Scene<'_>,
    queries: &[Query],
    asks: &[Ask],
    into: &mut Vec<u8>,
) -> Result<(), AllocError>
    ensures { OnOk result (into.new.items ≡ into.old.items ++ each_from
        (query_text (map operation_form scene.now.ops.now) (map component_form scene.now.components.now) scene.now.names.now
        (map ask_form asks.now)) 0 (map query_form queries.now)) }
{
    let mut place = 0;
    let mut rest = queries;
    'queries: while let [query, behind @ ..] = rest {
        push_query(alloc, scene, asks, place, query, into)?;
        place += 1;
        rest = behind;
    }
    Ok(())
}

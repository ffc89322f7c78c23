//! Pictures as SVG.
ghost use Rattle.std.specs.Prelude.{◌≡◌, ◌≤◌, ◌^◌, ◌++◌, OnOk};
ghost use Rattle.std.specs.Fmt.{decimal};
ghost use Rattle.kat_picture.specs.Drawing.{arrow_svg, arrows, bend, drawn, first_text, ground, head_svg, label_head, label_of, label_place, label_svg, labels, lane_line, lane_name, lane_svg, mark_head, mark_svg, packet_svg, picture_height, picture_width, point, shape, shapes, size_svg, svg, svg_at, view_svg};
ghost use Rattle.kat_picture.specs.Lanes.{for_each};

use crate::escaping::push_escaped;
use crate::pictures::{Event, EventKind, Picture};
use crate::scale::{WIDEST_LANE, lane_width, x_of, y_of};
use itoa::Buffer;
use std::alloc::AllocError;

/// Appends the picture as SVG: replicas from left to right, and the script downwards.
pub fn push_svg(picture: &Picture, into: &mut Vec<u8>) -> Result<(), AllocError>
    ensures { OnOk result (into.new.items ≡ into.old.items ++ svg picture.now) }
{
    let events = picture.events.as_slice();
    let width = lane_width(events);
    let height = picture_height(events);
    push_svg_at(width, height, picture.replicas, events, into)
}

/// Appends the picture of events at this many replicas, which are so far apart, down to a height.
fn push_svg_at(
    width: u128,
    height: u128,
    replicas: u32,
    events: &[Event],
    into: &mut Vec<u8>,
) -> Result<(), AllocError>
    requires { width ≤ WIDEST_LANE }
    ensures { OnOk result (into.new.items ≡ into.old.items ++ svg_at width height replicas events.now) }
{
    push_head(picture_width(width, replicas), height, into)?;
    push_lanes(width, height, replicas, into)?;
    push_drawn(width, events, into)
}

/// How wide a picture is.
fn picture_width(width: u128, replicas: u32) -> u128
    requires { width ≤ WIDEST_LANE }
    ensures { result ≡ picture_width width replicas }
{
    40 + width * u128::from(replicas)
}

/// How high it is.
fn picture_height(events: &[Event]) -> u128
    ensures { result ≡ picture_height events.now }
{
    let rows = events.len() as u64;
    56 + 30 * u128::from(rows)
}

/// Appends what happens, and the end of the picture.
fn push_drawn(width: u128, events: &[Event], into: &mut Vec<u8>) -> Result<(), AllocError>
    requires { width ≤ WIDEST_LANE }
    ensures { OnOk result (into.new.items ≡ into.old.items ++ drawn width events.now) }
{
    push_arrows(width, events, into)?;
    push_shapes(width, events, into)?;
    push_labels(width, events, into)?;
    into.extend_from_slice(b"</svg>\n")
}

/// Appends what comes before the drawing.
fn push_head(width: u128, height: u128, into: &mut Vec<u8>) -> Result<(), AllocError>
    ensures { OnOk result (into.new.items ≡ into.old.items ++ head_svg width height) }
{
    push_size(width, height, into)?;
    push_view(width, height, into)?;
    into.extend_from_slice(ground())
}

fn push_size(width: u128, height: u128, into: &mut Vec<u8>) -> Result<(), AllocError>
    ensures { OnOk result (into.new.items ≡ into.old.items ++ size_svg width height) }
{
    into.extend_from_slice(first_text())?;
    push_number(b"", width, into)?;
    push_number(b"' height='", height, into)
}

fn push_view(width: u128, height: u128, into: &mut Vec<u8>) -> Result<(), AllocError>
    ensures { OnOk result (into.new.items ≡ into.old.items ++ view_svg width height) }
{
    into.extend_from_slice(b"' viewBox='0 0 ")?;
    push_point(width, height, into)?;
    into.extend_from_slice(b"' font-family='monospace' font-size='13'>\n")
}

fn first_text() -> &'static [u8]
    ensures { result.now ≡ first_text }
{
    b"<svg xmlns='http://www.w3.org/2000/svg' width='"
}

/// The colours, the tip of an arrow, and the ground.
fn ground() -> &'static [u8]
    ensures { result.now ≡ ground }
{
    b"<style>.lane{stroke:#999;fill:none}.head{text-anchor:middle;fill:#555}.arrow{stroke:#2a6fb0;fill:none;stroke-width:1.5;marker-end:url(#tip)}.lost{stroke:#c03030;fill:none;stroke-width:1.5}.do{fill:#2f4858}.ask{fill:#fff;stroke:#2f7d4f;stroke-width:2}.show{fill:#fff;stroke:#555;stroke-width:2}.packet{fill:#2a6fb0}.packet-text{fill:#2a6fb0;font-style:italic}.ask-text{fill:#2f7d4f}text{fill:#222;paint-order:stroke;stroke:#fff;stroke-width:4px}</style>\n<defs><marker id='tip' viewBox='0 0 8 8' refX='11' refY='4' markerWidth='7' markerHeight='7' orient='auto'><path d='M0 0L8 4L0 8z' fill='#2a6fb0'/></marker></defs>\n<rect width='100%' height='100%' fill='#fff'/>\n"
}

/// Appends the lines of this many replicas, down to a height.
fn push_lanes(
    width: u128,
    height: u128,
    replicas: u32,
    into: &mut Vec<u8>,
) -> Result<(), AllocError>
    requires { width ≤ WIDEST_LANE }
    ensures { OnOk result (into.new.items ≡ into.old.items ++ for_each (lane_svg width height) replicas) }
{
    for number in 0..replicas {
        push_lane(width, height, number + 1, into)?;
    }
    Ok(())
}

fn push_lane(width: u128, height: u128, replica: u32, into: &mut Vec<u8>) -> Result<(), AllocError>
    requires { width ≤ WIDEST_LANE }
    ensures { OnOk result (into.new.items ≡ into.old.items ++ lane_svg width height replica) }
{
    let x = x_of(width, replica);
    push_lane_line(x, height, into)?;
    push_lane_name(x, replica, into)
}

fn push_lane_line(x: u128, height: u128, into: &mut Vec<u8>) -> Result<(), AllocError>
    ensures { OnOk result (into.new.items ≡ into.old.items ++ lane_line x height) }
{
    push_number(b"<path class='lane' d='M", x, into)?;
    push_number(b" 34V", height, into)?;
    into.extend_from_slice(b"'/>")
}

fn push_lane_name(x: u128, replica: u32, into: &mut Vec<u8>) -> Result<(), AllocError>
    ensures { OnOk result (into.new.items ≡ into.old.items ++ lane_name x replica) }
{
    push_number(b"<text class='head' x='", x, into)?;
    push_number(b"' y='24'>replica ", u128::from(replica), into)?;
    into.extend_from_slice(b"</text>\n")
}

fn push_arrows(width: u128, events: &[Event], into: &mut Vec<u8>) -> Result<(), AllocError>
    requires { width ≤ WIDEST_LANE }
    ensures { OnOk result (into.new.items ≡ into.old.items ++ arrows width events.now) }
{
    for event in events {
        let x = x_of(width, event.replica);
        push_packet(width, x, y_of(event.row), event.kind, into)?;
    }
    Ok(())
}

/// Appends the arrow of a packet that is delivered at a place, and one that ends in a cross of a packet that never is.
fn push_packet(
    width: u128,
    x: u128,
    y: u128,
    kind: EventKind,
    into: &mut Vec<u8>,
) -> Result<(), AllocError>
    requires { width ≤ WIDEST_LANE }
    ensures { OnOk result (into.new.items ≡ into.old.items ++ packet_svg width x y kind) }
{
    match kind {
        EventKind::Delivers { row, replica } => {
            push_arrow(x_of(width, replica), y_of(row), x, y, into)
        }
        EventKind::Ships { lost: true } => {
            into.extend_from_slice(b"<path class='lost' d='M")?;
            push_point(x, y, into)?;
            into.extend_from_slice(b"l22 18m-5-5l10 10m0-10l-10 10'/>\n")
        }
        EventKind::Ships { lost: false } | EventKind::Does | EventKind::Asks | EventKind::Shows => {
            Ok(())
        }
    }
}

/// Appends an arrow from one place to another.
fn push_arrow(
    x: u128,
    y: u128,
    to_x: u128,
    to_y: u128,
    into: &mut Vec<u8>,
) -> Result<(), AllocError>
    ensures { OnOk result (into.new.items ≡ into.old.items ++ arrow_svg x y to_x to_y) }
{
    into.extend_from_slice(b"<path class='arrow' d='M")?;
    push_point(x, y, into)?;
    push_bend(x, y, to_x, to_y, into)?;
    push_point(to_x, to_y, into)?;
    into.extend_from_slice(b"'/>\n")
}

/// Appends how an arrow goes on to its end: straight, or to a place at the same replica in a bend to the left.
fn push_bend(x: u128, y: u128, to_x: u128, to_y: u128, into: &mut Vec<u8>) -> Result<(), AllocError>
    ensures { OnOk result (into.new.items ≡ into.old.items ++ bend x y to_x to_y) }
{
    if x != to_x {
        return into.extend_from_slice(b"L");
    }
    let left = x.saturating_sub(28);
    into.extend_from_slice(b"C")?;
    push_point(left, y, into)?;
    into.extend_from_slice(b" ")?;
    push_point(left, to_y, into)?;
    into.extend_from_slice(b" ")
}

fn push_shapes(width: u128, events: &[Event], into: &mut Vec<u8>) -> Result<(), AllocError>
    requires { width ≤ WIDEST_LANE }
    ensures { OnOk result (into.new.items ≡ into.old.items ++ shapes width events.now) }
{
    for event in events {
        push_mark(
            x_of(width, event.replica),
            y_of(event.row),
            event.kind,
            into,
        )?;
    }
    Ok(())
}

fn push_mark(x: u128, y: u128, kind: EventKind, into: &mut Vec<u8>) -> Result<(), AllocError>
    ensures { OnOk result (into.new.items ≡ into.old.items ++ mark_svg x y kind) }
{
    into.extend_from_slice(mark_head(kind))?;
    push_point(x, y, into)?;
    into.extend_from_slice(shape(kind))
}

/// How a mark begins, with what it is for its colours.
fn mark_head(kind: EventKind) -> &'static [u8]
    ensures { result.now ≡ mark_head kind }
{
    match kind {
        EventKind::Does => b"<path class='do' d='M",
        EventKind::Asks => b"<path class='ask' d='M",
        EventKind::Shows => b"<path class='show' d='M",
        EventKind::Ships { .. } | EventKind::Delivers { .. } => b"<path class='packet' d='M",
    }
}

/// The shape of a mark, from its place on.
fn shape(kind: EventKind) -> &'static [u8]
    ensures { result.now ≡ shape kind }
{
    match kind {
        EventKind::Does => b"m-7 0a7 7 0 1 0 14 0a7 7 0 1 0-14 0z'/>\n",
        EventKind::Asks => b"m-8 0l8-8l8 8l-8 8z'/>\n",
        EventKind::Shows => b"m-6-6h12v12h-12z'/>\n",
        EventKind::Ships { .. } | EventKind::Delivers { .. } => {
            b"m-3 0a3 3 0 1 0 6 0a3 3 0 1 0-6 0z'/>\n"
        }
    }
}

fn push_labels(width: u128, events: &[Event], into: &mut Vec<u8>) -> Result<(), AllocError>
    requires { width ≤ WIDEST_LANE }
    ensures { OnOk result (into.new.items ≡ into.old.items ++ labels width events.now) }
{
    for event in events {
        let text = event.text.as_slice();
        push_label(
            x_of(width, event.replica),
            y_of(event.row),
            event.kind,
            text,
            into,
        )?;
    }
    Ok(())
}

/// Appends the text beside a mark.
fn push_label(
    x: u128,
    y: u128,
    kind: EventKind,
    text: &[u8],
    into: &mut Vec<u8>,
) -> Result<(), AllocError>
    requires x { x ≤ 2 ^ 64 }
    requires y { y ≤ 2 ^ 80 }
    ensures { OnOk result (into.new.items ≡ into.old.items ++ label_svg x y kind text.now) }
{
    into.extend_from_slice(label_head(kind))?;
    push_label_place(x + 12, y + 4, into)?;
    push_label_text(kind, text, into)?;
    into.extend_from_slice(b"</text>\n")
}

fn label_head(kind: EventKind) -> &'static [u8]
    ensures { result.now ≡ label_head kind }
{
    match kind {
        EventKind::Does => b"<text class='do-text' x='",
        EventKind::Asks => b"<text class='ask-text' x='",
        EventKind::Shows => b"<text class='show-text' x='",
        EventKind::Ships { .. } | EventKind::Delivers { .. } => b"<text class='packet-text' x='",
    }
}

fn push_label_place(x: u128, y: u128, into: &mut Vec<u8>) -> Result<(), AllocError>
    ensures { OnOk result (into.new.items ≡ into.old.items ++ label_place x y) }
{
    push_number(b"", x, into)?;
    push_number(b"' y='", y, into)?;
    into.extend_from_slice(b"'>")
}

fn push_label_text(kind: EventKind, text: &[u8], into: &mut Vec<u8>) -> Result<(), AllocError>
    ensures { OnOk result (into.new.items ≡ into.old.items ++ label_of kind text.now) }
{
    match kind {
        EventKind::Does | EventKind::Asks | EventKind::Ships { .. } => push_escaped(text, into),
        EventKind::Shows => into.extend_from_slice(b"show"),
        EventKind::Delivers { .. } => Ok(()),
    }
}

/// Appends `X Y`.
fn push_point(x: u128, y: u128, into: &mut Vec<u8>) -> Result<(), AllocError>
    ensures { OnOk result (into.new.items ≡ into.old.items ++ point x y) }
{
    push_number(b"", x, into)?;
    push_number(b" ", y, into)
}

/// Appends a text and then a number.
pub(crate) fn push_number(before: &[u8], number: u128, into: &mut Vec<u8>) -> Result<(), AllocError>
    ensures { OnOk result (into.new.items ≡ into.old.items ++ before.now ++ decimal number) }
{
    into.extend_from_slice(before)?;
    into.extend_from_slice(Buffer::new().format(number).as_bytes())
}

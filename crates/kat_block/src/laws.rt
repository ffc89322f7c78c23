//! Laws of lines.
ghost use Rattle.kat_block.specs.Alike.{HeldLinesAreAlike};

/// A law: a line is due, and has a point that is too wide, if and only if it is so of what it is held as.
pub fn held_lines_are_alike()
    ensures { HeldLinesAreAlike }
{}

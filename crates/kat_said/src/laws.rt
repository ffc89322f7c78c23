//! Laws of lines.
ghost use Rattle.kat_said.specs.Sayings.{SayOneThing};

/// A law: a line of a block says one thing.
pub fn lines_say_one_thing()
    ensures { SayOneThing }
{}

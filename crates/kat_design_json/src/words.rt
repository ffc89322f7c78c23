//! The words with which the parts of a design begin.
ghost use Rattle.std.specs.Prelude.{◌≡◌, option_map};
ghost use Rattle.kat_design_json.specs.Words.{component_words, shape_words, joint_words, ask_words};
ghost use Rattle.kat_json.specs.Words.{spelled};
ghost use Rattle.kat_shape.specs.Forms.{form_of};

use crate::tags::{AskTag, ComponentTag, ShapeTag};
use kat_shape::Shape;

/// How a component begins.
pub(crate) fn component_tag(word: &str) -> Option<ComponentTag>
    ensures { result ≡ spelled component_words word.now }
{
    match word {
        "cell" => Some(ComponentTag::Cell),
        "table" => Some(ComponentTag::Table),
        "set" => Some(ComponentTag::Set),
        "tally" => Some(ComponentTag::Tally),
        "tallies" => Some(ComponentTag::Tallies),
        _ => None,
    }
}

/// A shape without parts.
pub(crate) fn plain_shape(word: &str) -> Option<Shape>
    ensures { option_map form_of result ≡ spelled shape_words word.now }
{
    match word {
        "max" => Some(Shape::Max),
        "name" => Some(Shape::Name),
        "or" => Some(Shape::Or),
        _ => None,
    }
}

/// How a shape of two parts begins.
pub(crate) fn shape_tag(word: &str) -> Option<ShapeTag>
    ensures { result ≡ spelled joint_words word.now }
{
    match word {
        "lex" => Some(ShapeTag::Lex),
        "pair" => Some(ShapeTag::Pair),
        _ => None,
    }
}

/// How an ask begins.
pub(crate) fn ask_tag(word: &str) -> Option<AskTag>
    ensures { result ≡ spelled ask_words word.now }
{
    match word {
        "leaf" => Some(AskTag::Leaf),
        "p" => Some(AskTag::Param),
        "not" => Some(AskTag::Not),
        "and" => Some(AskTag::And),
        "or" => Some(AskTag::Or),
        "<" => Some(AskTag::Less),
        "+" => Some(AskTag::Plus),
        "-" => Some(AskTag::Minus),
        _ => None,
    }
}

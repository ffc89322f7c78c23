//! Which declaration a word means.
ghost use Rattle.std.specs.Prelude.{◌≡◌};
ghost use Rattle.kat_grammar.specs.declared.phrases.Word.{Word};
ghost use Rattle.kat_judging.specs.Names.{first_named};

use kat_grammar::{Operation, Parameter, Query, State, Word};

/// What a name is of: its place in the list, and itself.
#[derive(Clone, Copy)]
pub struct Declared<T> {
    pub place: usize,
    pub it: T,
}

/// What has a name.
pub trait Named {
    ghost word: { Self → Word };

    /// The name, with its place.
    fn word(&self) -> Word
        ensures { result ≡ word self.now };
}

impl Named for State {
    ghost word = { λ state. state.name };

    fn word(&self) -> Word {
        self.name
    }
}

impl Named for Parameter {
    ghost word = { λ parameter. parameter.name };

    fn word(&self) -> Word {
        self.name
    }
}

impl Named for Operation {
    ghost word = { λ operation. operation.name };

    fn word(&self) -> Word {
        self.name
    }
}

impl Named for Query {
    ghost word = { λ query. query.name };

    fn word(&self) -> Word {
        self.name
    }
}

/// The first of a list whose name has this code.
pub fn first_named<T: Named + Copy>(list: &[T], code: u128) -> Option<Declared<T>>
    ensures { result ≡ first_named (λ (it : T). (T.word it).code) code list.now }
{
    for place in 0..list.len() {
        if list[place].word().code == code {
            return Some(Declared {
                place,
                it: list[place],
            });
        }
    }
    None
}

//! The reader of symbolic values: its variables, the values that it read once, and the facts so far.
ghost use Rattle.std.specs.Prelude.{◌≡◌, IfOk, length, map, option_map, true};
ghost use Rattle.kat_form.specs.Facts.Fact.{truth_is};
ghost use Rattle.kat_form.specs.Facts.{fact_of};
ghost use Rattle.kat_linear.specs.Rows.{form_of};
ghost use Rattle.kat_symbols.specs.Readers.{code_of, instance_code, same_name, is_slot_of, place_of, place_in, with_slot, with_flag, with_kept, state, read_name, read_flag, chosen, choose, found, fresh};
ghost use Rattle.kat_symbols.specs.Symbols.{as_number, read_variable, symbol_if};
ghost use Rattle.kat_symbols.specs.Sums.{variable};
ghost use Rattle.kat_symbols.specs.Views.{symbol_form, kept_form, reader_of, GivesFact, GivesRow, GivesSymbol};

use crate::connectives::{denied, either, same, truth_if};
use crate::names::{Instance, Name, Place, Slot};
use crate::sums::{numeral, variable};
use crate::symbols::Symbol;
use kat_form::Formula;
use kat_linear::Row;
use std::alloc::{AllocError, Global};

/// The number and the truth variables so far, the values that were read once, and the facts.
#[derive(Drop)]
pub struct Reader {
    pub slots: Vec<Slot>,
    pub flags: Vec<Name>,
    pub kept: Vec<(Name, Symbol)>,
    pub facts: Vec<Formula>,
}

/// The code of a key.
fn instance_code(at: Option<Instance>) -> u64
    ensures { result ≡ instance_code at }
{
    match at {
        None => 0,
        Some(Instance::Claim) => 1,
        Some(Instance::Argument(j)) => u64::from(j) + 2,
    }
}

/// The code of a name.
fn code_of(name: Name) -> (u32, u32, u32, u64)
    ensures { result ≡ code_of name }
{
    match name {
        Name::Key(i) => (0, 0, 0, instance_code(Some(i))),
        Name::Kept(Place::Field(f), at) => (1, f, 0, instance_code(at)),
        Name::Kept(Place::Leaf(c, l), at) => (2, c, l, instance_code(at)),
        Name::Effect(c, l) => (3, c, l, 0),
        Name::Begun => (4, 0, 0, 0),
        Name::Element(j) => (5, j, 0, 0),
        Name::LastTime => (6, 0, 0, 0),
        Name::LastReplica => (7, 0, 0, 0),
        Name::Time => (8, 0, 0, 0),
        Name::Replica => (9, 0, 0, 0),
    }
}

/// Whether two names are the same.
fn same_name(a: Name, b: Name) -> bool
    ensures { result ≡ same_name a b }
{
    let a = code_of(a);
    let b = code_of(b);
    a.0 == b.0 && a.1 == b.1 && a.2 == b.2 && a.3 == b.3
}

/// Whether the slot is the name's.
fn is_slot_of(name: Name, slot: Slot) -> bool
    ensures { result ≡ is_slot_of name slot }
{
    match slot {
        Slot::Named(other) => same_name(name, other),
        Slot::Chosen => false,
    }
}

/// The place of the first slot of a name.
fn place_of(name: Name, slots: &[Slot]) -> Option<usize>
    ensures { result ≡ place_of name slots.now }
{
    for (i, slot) in slots.iter().enumerate() {
        if is_slot_of(name, *slot) {
            return Some(i);
        }
    }
    None
}

/// The place of the first flag of a name.
fn place_in(name: Name, flags: &[Name]) -> Option<usize>
    ensures { result ≡ place_in name flags.now }
{
    for (i, flag) in flags.iter().enumerate() {
        if same_name(name, *flag) {
            return Some(i);
        }
    }
    None
}

/// A copy of what a name was read as.
fn found(alloc: Global, name: Name, kept: &[(Name, Symbol)]) -> Result<Option<Symbol>, AllocError>
    ensures { IfOk result (λ symbol. option_map symbol_form symbol ≡ found name (map kept_form kept.now)) }
{
    for entry in kept {
        if same_name(name, entry.0) {
            return Ok(Some(entry.1.copy(alloc)?));
        }
    }
    Ok(None)
}

/// The formula of a truth variable. There are no more variables than memory holds.
fn truth_variable(place: usize) -> Result<Formula, AllocError>
    ensures { IfOk result (λ f. fact_of f ≡ truth_is place true) }
{
    match u32::try_from(place) {
        Ok(var) => Ok(Formula::Lit {
            var,
            positive: true,
        }),
        Err(_) => Err(AllocError),
    }
}

impl Reader {
    /// A reader that has read nothing.
    pub fn new(alloc: Global) -> Reader
        ensures { reader_of result ≡ fresh }
    {
        Reader {
            slots: Vec::new(alloc),
            flags: Vec::new(alloc),
            kept: Vec::new(alloc),
            facts: Vec::new(alloc),
        }
    }

    /// A new number variable.
    fn add(&mut self, alloc: Global, slot: Slot) -> Result<Row, AllocError>
        ensures form { IfOk result (λ row. form_of row ≡ variable (length (reader_of self.old).slots)) }
        ensures reader { IfOk result (λ row. reader_of self.new ≡ with_slot slot (reader_of self.old)) }
    {
        let row = variable(alloc, self.slots.len())?;
        self.slots.push(slot)?;
        Ok(row)
    }

    /// The number variable of a name: the one that it has, or a new one.
    pub fn read_name(&mut self, alloc: Global, name: Name) -> Result<Row, AllocError>
        ensures { GivesRow (read_name name (reader_of self.old)) result (reader_of self.new) }
    {
        match place_of(name, &self.slots) {
            Some(place) => variable(alloc, place),
            None => self.add(alloc, Slot::Named(name)),
        }
    }

    /// A new truth variable.
    fn add_flag(&mut self, name: Name) -> Result<Formula, AllocError>
        ensures { GivesFact (truth_is (length (reader_of self.old).flags) true, with_flag name (reader_of self.old)) result
            (reader_of self.new) }
    {
        let formula = truth_variable(self.flags.len())?;
        self.flags.push(name)?;
        Ok(formula)
    }

    /// The truth variable of a name: the one that it has, or a new one.
    pub fn read_flag(&mut self, name: Name) -> Result<Formula, AllocError>
        ensures { GivesFact (read_flag name (reader_of self.old)) result (reader_of self.new) }
    {
        match place_in(name, &self.flags) {
            Some(place) => truth_variable(place),
            None => self.add_flag(name),
        }
    }

    /// A variable of its own, for a truth value or for a number.
    pub fn read_variable(
        &mut self,
        alloc: Global,
        is_truth: bool,
        name: Name,
    ) -> Result<Symbol, AllocError>
        ensures { GivesSymbol (read_variable is_truth name (reader_of self.old)) result (reader_of self.new) }
    {
        if is_truth {
            Ok(Symbol::Truth(self.read_flag(name)?))
        } else {
            Ok(Symbol::Number(self.read_name(alloc, name)?))
        }
    }

    /// A fact more.
    pub fn state(&mut self, fact: Formula) -> Result<(), AllocError>
        ensures { IfOk result (λ u. reader_of self.new ≡ state (fact_of fact) (reader_of self.old)) }
    {
        self.facts.push(fact)?;
        Ok(())
    }

    /// A new variable for "if c then a else b", with the two facts that say so.
    fn chosen(&mut self, alloc: Global, c: Formula, a: &Row, b: &Row) -> Result<Row, AllocError>
        ensures { GivesRow (chosen (fact_of c) (form_of a.now) (form_of b.now) (reader_of self.old)) result (reader_of self.new) }
    {
        let row = self.add(alloc, Slot::Chosen)?;
        let not = denied(alloc, &c)?;
        let taken = same(alloc, &row, a)?;
        self.state(either(alloc, not, taken)?)?;
        let other = same(alloc, &row, b)?;
        self.state(either(alloc, c, other)?)?;
        Ok(row)
    }

    /// What "if c then a else b" is: if c folds to true or false, that branch, and otherwise a new variable.
    pub fn choose(&mut self, alloc: Global, c: Formula, a: Row, b: Row) -> Result<Row, AllocError>
        ensures { GivesRow (choose (fact_of c) (form_of a) (form_of b) (reader_of self.old)) result (reader_of self.new) }
    {
        match c.constant() {
            Some(true) => Ok(a),
            Some(false) => Ok(b),
            None => self.chosen(alloc, c, &a, &b),
        }
    }

    /// If c then a else b, for two values of one kind.
    pub fn symbol_if(
        &mut self,
        alloc: Global,
        c: Formula,
        a: Symbol,
        b: Symbol,
    ) -> Result<Symbol, AllocError>
        ensures { GivesSymbol (symbol_if (fact_of c) (symbol_form a) (symbol_form b) (reader_of self.old)) result (reader_of self.new) }
    {
        match (a, b) {
            (Symbol::Number(a), Symbol::Number(b)) => {
                Ok(Symbol::Number(self.choose(alloc, c, a, b)?))
            }
            (Symbol::Number(_), Symbol::Truth(_)) => Ok(Symbol::Truth(Formula::False)),
            (Symbol::Truth(_), Symbol::Number(_)) => Ok(Symbol::Truth(Formula::False)),
            (Symbol::Truth(a), Symbol::Truth(b)) => {
                Ok(Symbol::Truth(truth_if(alloc, c, &a, b)?))
            }
        }
    }

    /// A truth value as a number: 1 if it is true, and otherwise 0.
    pub fn as_number(&mut self, alloc: Global, symbol: Symbol) -> Result<Row, AllocError>
        ensures { GivesRow (as_number (symbol_form symbol) (reader_of self.old)) result (reader_of self.new) }
    {
        match symbol {
            Symbol::Number(row) => Ok(row),
            Symbol::Truth(formula) => {
                let one = numeral(alloc, 1);
                let zero = numeral(alloc, 0);
                self.choose(alloc, formula, one, zero)
            }
        }
    }

    /// A copy of what a name was read as, if it was.
    pub fn found(&self, alloc: Global, name: Name) -> Result<Option<Symbol>, AllocError>
        ensures { IfOk result (λ symbol. option_map symbol_form symbol ≡ found name (reader_of self.now).kept) }
    {
        found(alloc, name, &self.kept)
    }

    /// A value is kept as what the name was read as.
    pub fn keep(&mut self, alloc: Global, name: Name, symbol: Symbol) -> Result<Symbol, AllocError>
        ensures { GivesSymbol (symbol_form symbol, with_kept name (symbol_form symbol) (reader_of self.old)) result (reader_of self.new) }
    {
        let copy = symbol.copy(alloc)?;
        self.kept.push((name, copy))?;
        Ok(symbol)
    }
}

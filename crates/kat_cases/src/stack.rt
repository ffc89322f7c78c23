//! The state of a walk over the nodes: a stack of the branches that are being walked, with the lines recorded so far.
ghost use Rattle.std.specs.Prelude.{◌≡◌, ℕ, ◌+◌, ◌-◌, ◌<◌, ◌^◌, ◌↔◌, ℤ, neg_ℤ, List, [], ◌∷◌, ◌++◌, reverse, map, true, false, IfOk, OnOk, Option, option_map, MatchOption, IfSome};
ghost use Rattle.std.specs.List.{All, Contains};
ghost use Rattle.kat_clause.specs.Clauses.{AreAmong};
ghost use Rattle.kat_watch.specs.Watched.{IsLiteral, AreLiterals};
ghost use Rattle.kat_cases.specs.Guests.{IsPath};
ghost use Rattle.kat_refute.specs.Lines.{line_of, lines_of, literals_of, added};
ghost use Rattle.kat_cases.specs.Nodes.{Setting};
ghost use Rattle.kat_cases.specs.Walks.{Shrinks, own, core_line};
ghost use Rattle.kat_cases.specs.Stacks.{Progress, step_of, path_of, literal_of, HasCore, Left, Unwound, Assumes, AreSmall};
ghost use Rattle.kat_cases.specs.Stacks.Step.{first_of, second_of};

use crate::assumptions::Assumptions;
use crate::cores::{denial, join, shrink, uses};
use kat_refute::ProofLine;
use kat_resolution::opposite;
use std::alloc::{AllocError, Global};
use std::marker::Model;

/// A branch of a split that is being walked: the first, or the second with the core of the first.
#[derive(Drop)]
pub enum Branch {
    First(i32),
    Second { literal: i32, first: Vec<i32> },
}

impl Branch {
    /// The literal that is assumed in the branch.
    fn literal(&self) -> i32
        ensures { result ≡ literal_of (step_of self.now) }
    {
        match self {
            Branch::First(literal) => *literal,
            Branch::Second { literal, .. } => *literal,
        }
    }
}

/// The state of a walk: the branches that are being walked, the lines recorded so far and the leaves left.
#[derive(Drop)]
pub struct Walk {
    branches: Vec<Branch>,
    lines: Vec<ProofLine>,
    left: u32,
}

impl Model for Walk {
    ghost Value = { Progress };

    ghost view = { λ w. record { steps = reverse (map step_of w.branches.items); lines = lines_of w.lines.items; left = w.left } };
}

impl Walk {
    /// A walk at its first node, which may have as many leaves as the effort is.
    pub fn new(alloc: Global, effort: u32) -> Walk
        ensures { result ≡ record { steps = []; lines = []; left = effort } }
    {
        Walk {
            branches: Vec::new(alloc),
            lines: Vec::new(alloc),
            left: effort,
        }
    }

    /// Whether no leaf is left.
    pub fn is_spent(&self) -> bool
        ensures { (result ≡ true) ↔ (self.now.left ≡ 0) }
    {
        self.left == 0
    }

    /// Takes one from the leaves left, of which there has to be one.
    pub fn count_leaf(&mut self)
        requires { 0 < self.old.left }
        ensures { self.new ≡ record self.old { left = self.old.left - 1 } }
    {
        self.left -= 1;
    }

    /// The lines recorded.
    pub fn into_lines(self) -> Vec<ProofLine>
        ensures { lines_of result.items ≡ self.lines }
    {
        self.lines
    }

    /// The literals that are assumed, in order.
    fn path(&self, alloc: Global) -> Result<Vec<i32>, AllocError>
        ensures { IfOk result (λ path. reverse path.items ≡ path_of self.now.steps) }
    {
        let mut path = Vec::new(alloc);
        for branch in &self.branches {
            path.push(branch.literal())?;
        }
        Ok(path)
    }

    /// Records the line of a core's opposites.
    pub fn record(&mut self, alloc: Global, core: &[i32]) -> Result<(), AllocError>
        requires { AreSmall core.now }
        ensures { OnOk result (self.new ≡ record self.old { lines = self.old.lines ++ core_line core.now ∷ [] }) }
    {
        let lits = denial(alloc, core)?;
        self.lines.push(ProofLine::Rup(lits))?;
        Ok(())
    }

    /// The core of a leaf with its own line.
    fn line_core(
        &mut self,
        alloc: Global,
        known: &mut Assumptions,
        line: ProofLine,
    ) -> Result<Vec<i32>, AllocError>
        requires assumed { reverse known.old.assumed ≡ path_of self.old.steps }
        requires path { IsPath known.old.greatest (path_of self.old.steps) }
        requires literals { AreLiterals known.old.greatest (literals_of (line_of line)) }
        ensures core { IfOk result (λ core. (F : List (List ℤ)) → AreAmong known.old.clauses F → AreAmong F known.old.clauses
            → Shrinks (F ++ literals_of (line_of line) ∷ []) (path_of self.old.steps) [] core.items) }
        ensures walk { IfOk result (λ core. self.new ≡ record self.old { lines = self.old.lines ++ line_of line ∷ [] }) }
        ensures known { IfOk result (λ core. known.new ≡ record known.old { assumed = []; settled = false }) }
    {
        let path = self.path(alloc)?;
        let core = shrink(alloc, known, &path, Some(line.literals()))?;
        known.undo(0);
        self.lines.push(line)?;
        Ok(core)
    }

    /// The core of a leaf without a line of its own.
    fn plain_core(&self, alloc: Global, known: &mut Assumptions) -> Result<Vec<i32>, AllocError>
        requires assumed { reverse known.old.assumed ≡ path_of self.now.steps }
        requires path { IsPath known.old.greatest (path_of self.now.steps) }
        ensures core { IfOk result (λ core. (F : List (List ℤ)) → AreAmong known.old.clauses F → AreAmong F known.old.clauses
            → Shrinks F (path_of self.now.steps) [] core.items) }
        ensures known { IfOk result (λ core. known.new ≡ record known.old { assumed = []; settled = false }) }
    {
        let path = self.path(alloc)?;
        let core = shrink(alloc, known, &path, None)?;
        known.undo(0);
        Ok(core)
    }

    /// The core of a leaf, whose own line is recorded if it has one. The assumed literals have to be the walk's path, and
    /// none stays assumed.
    pub fn own_core(
        &mut self,
        alloc: Global,
        known: &mut Assumptions,
        line: Option<ProofLine>,
    ) -> Result<Vec<i32>, AllocError>
        requires assumed { reverse known.old.assumed ≡ path_of self.old.steps }
        requires path { IsPath known.old.greatest (path_of self.old.steps) }
        requires literals { All (λ l. AreLiterals known.old.greatest (literals_of l)) (own (option_map line_of line)) }
        ensures core { IfOk result (λ core. (F : List (List ℤ)) → AreAmong known.old.clauses F → AreAmong F known.old.clauses
            → Shrinks (F ++ added (own (option_map line_of line))) (path_of self.old.steps) [] core.items) }
        ensures walk { IfOk result (λ core. self.new ≡ record self.old { lines = self.old.lines ++ own (option_map line_of line) }) }
        ensures known { IfOk result (λ core. known.new ≡ record known.old { assumed = []; settled = false }) }
    {
        match line {
            Some(line) => self.line_core(alloc, known, line),
            None => self.plain_core(alloc, known),
        }
    }

    /// Leaves a branch whose node has this core: the core of the split, or none if its second branch must be walked.
    fn leave(
        &mut self,
        alloc: Global,
        branch: Branch,
        core: Vec<i32>,
    ) -> Result<Option<Vec<i32>>, AllocError>
        requires { AreSmall (literal_of (step_of branch) ∷ path_of self.old.steps) }
        ensures left { IfOk result (λ next. (s : Setting) (effort : ℕ) →
            HasCore s effort (record self.old { steps = step_of branch ∷ self.old.steps }) core.items → Left s effort self.new next) }
        ensures path { IfOk result (λ next. (g : ℕ) → IsPath g (literal_of (step_of branch) ∷ path_of self.old.steps)
            → IsPath g (path_of self.new.steps)) }
        ensures leaves { IfOk result (λ next. self.new.left ≡ self.old.left) }
        ensures steps { IfOk result (λ next. IfSome next (λ core. self.new.steps ≡ self.old.steps)) }
    {
        match branch {
            Branch::First(literal) => self.leave_first(literal, core),
            Branch::Second { literal, first } => self.leave_second(alloc, literal, &first, core),
        }
    }

    /// Leaves the first branch of a split.
    fn leave_first(&mut self, literal: i32, core: Vec<i32>) -> Result<Option<Vec<i32>>, AllocError>
        requires { AreSmall (literal ∷ path_of self.old.steps) }
        ensures left { IfOk result (λ next. (s : Setting) (effort : ℕ) →
            HasCore s effort (record self.old { steps = first_of literal ∷ self.old.steps }) core.items → Left s effort self.new next) }
        ensures path { IfOk result (λ next. (g : ℕ) → IsPath g (literal ∷ path_of self.old.steps) → IsPath g (path_of self.new.steps)) }
        ensures leaves { IfOk result (λ next. self.new.left ≡ self.old.left) }
        ensures steps { IfOk result (λ next. IfSome next (λ core. self.new.steps ≡ self.old.steps)) }
    {
        if !uses(&core, literal) {
            return Ok(Some(core));
        }
        self.turn(opposite(literal), core)?;
        Ok(None)
    }

    /// Goes to the second node of a split.
    fn turn(&mut self, literal: i32, first: Vec<i32>) -> Result<(), AllocError>
        ensures { OnOk result (self.new ≡ record self.old { steps = second_of literal first.items ∷ self.old.steps }) }
    {
        self.branches.push(Branch::Second { literal, first })?;
        Ok(())
    }

    /// Leaves the second branch of a split.
    fn leave_second(
        &mut self,
        alloc: Global,
        literal: i32,
        first: &[i32],
        core: Vec<i32>,
    ) -> Result<Option<Vec<i32>>, AllocError>
        requires { AreSmall (literal ∷ path_of self.old.steps) }
        ensures left { IfOk result (λ next. (s : Setting) (effort : ℕ) →
            HasCore s effort (record self.old { steps = second_of literal first.now ∷ self.old.steps }) core.items
            → Left s effort self.new next) }
        ensures path { IfOk result (λ next. (g : ℕ) → IsPath g (literal ∷ path_of self.old.steps) → IsPath g (path_of self.new.steps)) }
        ensures leaves { IfOk result (λ next. self.new.left ≡ self.old.left) }
        ensures steps { IfOk result (λ next. IfSome next (λ core. self.new.steps ≡ self.old.steps)) }
    {
        if !uses(&core, literal) {
            return Ok(Some(core));
        }
        let path = self.path(alloc)?;
        let joined = join(alloc, &path, first, &core)?;
        self.record(alloc, &joined)?;
        Ok(Some(joined))
    }

    /// Takes the last branch off.
    fn pop(&mut self) -> Option<Branch>
        ensures { MatchOption result ((self.old.steps ≡ []) × (self.new ≡ self.old)) (λ b.
            self.old ≡ record self.new { steps = step_of b ∷ self.new.steps }) }
    {
        self.branches.pop()
    }

    /// Leaves branches until one must be walked, by the core of the node that was judged last; whether there is one. If there is
    /// none, the lines refute.
    pub fn unwind(&mut self, alloc: Global, core: Vec<i32>) -> Result<bool, AllocError>
        requires { IsPath (2 ^ 28) (path_of self.old.steps) }
        ensures unwound { IfOk result (λ more. (s : Setting) (effort : ℕ) → HasCore s effort self.old core.items
            → Unwound s effort self.new more) }
        ensures path { IfOk result (λ more. (g : ℕ) → IsPath g (path_of self.old.steps) → IsPath g (path_of self.new.steps)) }
        ensures leaves { IfOk result (λ more. self.new.left ≡ self.old.left) }
    {
        let mut core = core;
        while let Some(branch) = self.pop() {
            match self.leave(alloc, branch, core)? {
                Some(next) => core = next,
                None => return Ok(true),
            }
        }
        Ok(false)
    }

    /// Assumes the path's literals one after the other. None may be assumed before.
    pub fn assume(&self, known: &mut Assumptions) -> Result<(), AllocError>
        requires none { known.old.assumed ≡ [] }
        requires path { IsPath known.old.greatest (path_of self.now.steps) }
        ensures { OnOk result (Assumes known.old known.new (path_of self.now.steps)) }
    {
        for branch in &self.branches {
            let _falsified = known.propagate();
            known.assume(branch.literal())?;
        }
        Ok(())
    }

    /// Goes to the first node of a split on the literal, which is assumed too.
    pub fn descend(&mut self, known: &mut Assumptions, literal: i32) -> Result<(), AllocError>
        requires literal { IsLiteral known.old.greatest literal }
        requires apart { Contains known.old.assumed (neg_ℤ literal) → ⊥ }
        ensures walk { OnOk result (self.new ≡ record self.old { steps = first_of literal ∷ self.old.steps }) }
        ensures known { OnOk result (known.new ≡ record known.old { assumed = known.old.assumed ++ literal ∷ []; settled = false }) }
    {
        self.branches.push(Branch::First(literal))?;
        known.assume(literal)
    }
}

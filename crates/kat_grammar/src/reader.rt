//! How a type file is read, one token at a time.
ghost use Rattle.std.specs.Prelude.{◌≡◌, ◌+◌, ◌≤◌, ◌==◌, ℕ, length, not, true, false, IfOk, Some, None};
ghost use Rattle.kat_grammar.specs.Steps.{add_clear, add_element, begin_line, begin_type, behind_head, between, element_of, end_answer, end_line, end_operation, end_right, finish, first_spot, form_read, format_type, in_phrase, in_state, is_key, load_of, name_type, read_head, read_operation, read_query, read_right, read_state, read_word, spot, start_of, operation_of, whole_type, with_operation};
ghost use Rattle.kat_grammar.specs.Marks.{placed};
ghost use Rattle.kat_grammar.specs.Stacks.{read_on};
ghost use Rattle.kat_grammar.specs.Views.{Finds, IsFinished, IsInTarget, Judges, Steps, Stepped, Takes, draft_of, fresh, load_form, spot_of, weight};

use crate::formats::{in_format, is_newline, is_second};
use crate::marks::{Mark, Operator};
use crate::operands::{Load, Part, Reading, ended, load_read, read_on};
use crate::phrases::{
    Act, Assignment, Constant, Format, Kept, Operation, Parameter, Phrase, Query, RankElement,
    RankPart, State, Target, TypeText, Word,
};
use crate::stages::{HeadStage, Item, OperationStage, QueryStage, Signature, Stage, StateStage};
use crate::words::mark_of;
use kat_lex::Token;
use kat_num::{Items, Sort};
use std::alloc::{AllocError, Global};
use std::mem;

/// What was read of a type file.
#[derive(Drop)]
pub(crate) struct Reader {
    pub(crate) stage: Stage,
    pub(crate) at: usize,
    pub(crate) name: Word,
    pub(crate) format: Format,
    pub(crate) states: Vec<State>,
    pub(crate) operations: Vec<Operation>,
    pub(crate) queries: Vec<Query>,
    pub(crate) params: Vec<Parameter>,
    pub(crate) rank: Vec<RankPart>,
    pub(crate) assignments: Vec<Assignment>,
    pub(crate) reading: Reading,
    pub(crate) parts: Vec<Part>,
}

fn is_key(sort: Sort) -> bool
    ensures { result ≡ is_key sort }
{
    match sort {
        Sort::Bool => false,
        _ => true,
    }
}

fn started(
    name: Word,
    colon: usize,
    kept: Kept,
    equal: usize,
    at: usize,
    start: Constant,
) -> Option<StateStage>
    ensures { result ≡ Some (StateStage.Whole (start_of name colon kept equal at start)) }
{
    Some(StateStage::Whole {
        state: State {
            at,
            name,
            colon,
            kept,
            equal,
            start,
        },
    })
}

/// The line of a field is read on by a token.
fn read_state(line_at: usize, stage: StateStage, mark: Mark, at: usize) -> Option<StateStage>
    ensures { result ≡ read_state line_at stage mark at }
{
    match (stage, mark) {
        (StateStage::Begun, Mark::Word(code)) => Some(StateStage::Named {
            name: Word { at, code },
        }),
        (StateStage::Named { name }, Mark::Colon) => Some(StateStage::Colon { name, colon: at }),
        (StateStage::Colon { name, colon }, Mark::Sort(sort)) => Some(StateStage::Kept {
            name,
            colon,
            kept: Kept::One { sort_at: at, sort },
        }),
        (StateStage::Colon { name, colon }, Mark::Table) => Some(StateStage::Table {
            name,
            colon,
            table: at,
        }),
        (StateStage::Table { name, colon, table }, Mark::Sort(key)) if is_key(key) => {
            Some(StateStage::Key {
                name,
                colon,
                table,
                key_at: at,
                key,
            })
        }
        (
            StateStage::Key {
                name,
                colon,
                table,
                key_at,
                key,
            },
            Mark::Arrow,
        ) => Some(StateStage::Arrow {
            name,
            colon,
            table,
            key_at,
            key,
            arrow: at,
        }),
        (
            StateStage::Arrow {
                name,
                colon,
                table,
                key_at,
                key,
                arrow,
            },
            Mark::Sort(sort),
        ) => Some(StateStage::Kept {
            name,
            colon,
            kept: Kept::Each {
                table,
                key_at,
                key,
                arrow,
                sort_at: at,
                sort,
            },
        }),
        (StateStage::Kept { name, colon, kept }, Mark::Operator(Operator::Same)) => {
            Some(StateStage::Equal {
                name,
                colon,
                kept,
                equal: at,
            })
        }
        (
            StateStage::Equal {
                name,
                colon,
                kept,
                equal,
            },
            mark,
        ) => read_start(line_at, name, colon, kept, equal, mark, at),
        (
            StateStage::Minus {
                name,
                colon,
                kept,
                equal,
                minus,
            },
            Mark::Number(number),
        ) => started(
            name,
            colon,
            kept,
            equal,
            line_at,
            Constant::Negative {
                at: minus,
                number_at: at,
                number,
            },
        ),
        _ => None,
    }
}

/// The start value of a field begins.
fn read_start(
    line_at: usize,
    name: Word,
    colon: usize,
    kept: Kept,
    equal: usize,
    mark: Mark,
    at: usize,
) -> Option<StateStage>
    ensures { result ≡ read_state line_at (StateStage.Equal name colon kept equal) mark at }
{
    match mark {
        Mark::Number(number) => started(
            name,
            colon,
            kept,
            equal,
            line_at,
            Constant::Natural { at, number },
        ),
        Mark::Literal(literal) => started(
            name,
            colon,
            kept,
            equal,
            line_at,
            Constant::Literal { at, name: literal },
        ),
        Mark::Truth(truth) => started(
            name,
            colon,
            kept,
            equal,
            line_at,
            Constant::Truth { at, truth },
        ),
        Mark::Operator(Operator::Minus) => Some(StateStage::Minus {
            name,
            colon,
            kept,
            equal,
            minus: at,
        }),
        _ => None,
    }
}

/// The element of a rank that a token is.
fn element_of(mark: Mark, at: usize) -> Option<RankElement>
    ensures { result ≡ element_of mark at }
{
    match mark {
        Mark::Number(digit) if digit <= 9 => Some(RankElement::Digit { at, digit }),
        Mark::Time => Some(RankElement::Time { at }),
        Mark::Replica => Some(RankElement::Replica { at }),
        Mark::Word(code) => Some(RankElement::Parameter(Word { at, code })),
        _ => None,
    }
}

/// What follows the `)` of parameters.
fn behind_head(item: Item, at: usize, name: Word, open_at: usize, close_at: usize) -> Stage
    ensures { result ≡ behind_head item at name open_at close_at }
{
    let signature = Signature {
        at,
        name,
        open_at,
        close_at,
    };
    match item {
        Item::Operation => Stage::Operation {
            signature,
            stage: OperationStage::Closed,
        },
        Item::Query => Stage::Query {
            signature,
            stage: QueryStage::Closed,
        },
    }
}

impl Reader {
    /// Between two lines, or before the first.
    fn new(alloc: Global, stage: Stage, at: usize, name: Word, format: Format) -> Self
        ensures { spot_of result ≡ spot stage (fresh at name format) }
    {
        Reader {
            stage,
            at,
            name,
            format,
            states: Vec::new(alloc),
            operations: Vec::new(alloc),
            queries: Vec::new(alloc),
            params: Vec::new(alloc),
            rank: Vec::new(alloc),
            assignments: Vec::new(alloc),
            reading: Reading::Want,
            parts: Vec::new(alloc),
        }
    }

    /// Goes on to a stage.
    fn to(&mut self, stage: Stage) -> bool
        ensures { (result ≡ true) × (spot_of self.new ≡ spot stage (draft_of self.old)) }
    {
        self.stage = stage;
        true
    }

    #[tactic(auto, using(crate::proofs::Stacked::as_many))]
    fn has_operations(&self) -> bool
        ensures { result ≡ not (length (draft_of self.now).file.operations == 0) }
    {
        !self.operations.is_empty()
    }

    #[tactic(auto, using(crate::proofs::Stacked::as_many))]
    fn has_queries(&self) -> bool
        ensures { result ≡ not (length (draft_of self.now).file.queries == 0) }
    {
        !self.queries.is_empty()
    }

    /// A line begins.
    fn begin_line(&mut self, mark: Mark, at: usize) -> bool
        ensures { Stepped (begin_line (draft_of self.old) mark at) result self.new }
    {
        match mark {
            Mark::StateLine if !self.has_operations() => self.to(Stage::State {
                at,
                stage: StateStage::Begun,
            }),
            Mark::OpLine if !self.has_queries() => self.to(Stage::Head {
                item: Item::Operation,
                at,
                stage: HeadStage::Begun,
            }),
            Mark::QueryLine if self.has_operations() => self.to(Stage::Head {
                item: Item::Query,
                at,
                stage: HeadStage::Begun,
            }),
            _ => false,
        }
    }

    /// A name and its parameters are read on by a token.
    fn read_head(
        &mut self,
        item: Item,
        line_at: usize,
        stage: HeadStage,
        mark: Mark,
        at: usize,
    ) -> Result<bool, AllocError>
        ensures { Steps (read_head item line_at stage (draft_of self.old) mark at) result self.new }
    {
        match (stage, mark) {
            (
                HeadStage::Colon {
                    name,
                    open_at,
                    lead,
                    word,
                    colon,
                },
                Mark::Sort(sort),
            ) => {
                self.params.push(Parameter {
                    lead,
                    name: word,
                    colon,
                    sort_at: at,
                    sort,
                })?;
                Ok(self.to(Stage::Head {
                    item,
                    at: line_at,
                    stage: HeadStage::Listed { name, open_at },
                }))
            }
            (HeadStage::Opened { name, open_at }, Mark::Close) => {
                Ok(self.to(behind_head(item, line_at, name, open_at, at)))
            }
            (HeadStage::Listed { name, open_at }, Mark::Close) => {
                Ok(self.to(behind_head(item, line_at, name, open_at, at)))
            }
            (HeadStage::Begun, Mark::Word(code)) => {
                let name = Word { at, code };
                Ok(self.to_head(item, line_at, HeadStage::Named { name }))
            }
            (HeadStage::Named { name }, Mark::Open) => {
                Ok(self.to_head(item, line_at, HeadStage::Opened { name, open_at: at }))
            }
            (HeadStage::Opened { name, open_at }, Mark::Word(code)) => {
                let word = Word { at, code };
                let stage = HeadStage::Parameter {
                    name,
                    open_at,
                    lead: open_at,
                    word,
                };
                Ok(self.to_head(item, line_at, stage))
            }
            (
                HeadStage::Lead {
                    name,
                    open_at,
                    lead,
                },
                Mark::Word(code),
            ) => {
                let word = Word { at, code };
                let stage = HeadStage::Parameter {
                    name,
                    open_at,
                    lead,
                    word,
                };
                Ok(self.to_head(item, line_at, stage))
            }
            (
                HeadStage::Parameter {
                    name,
                    open_at,
                    lead,
                    word,
                },
                Mark::Colon,
            ) => {
                let stage = HeadStage::Colon {
                    name,
                    open_at,
                    lead,
                    word,
                    colon: at,
                };
                Ok(self.to_head(item, line_at, stage))
            }
            (HeadStage::Listed { name, open_at }, Mark::Comma) => {
                let stage = HeadStage::Lead {
                    name,
                    open_at,
                    lead: at,
                };
                Ok(self.to_head(item, line_at, stage))
            }
            _ => Ok(false),
        }
    }

    fn to_head(&mut self, item: Item, at: usize, stage: HeadStage) -> bool
        ensures { (result ≡ true) × (spot_of self.new ≡ spot (Stage.Head item at stage) (draft_of self.old)) }
    {
        self.to(Stage::Head { item, at, stage })
    }

    fn to_operation(&mut self, signature: Signature, stage: OperationStage) -> bool
        ensures { (result ≡ true) × (spot_of self.new ≡ spot (Stage.Operation signature stage) (draft_of self.old)) }
    {
        self.to(Stage::Operation { signature, stage })
    }

    /// An element of a rank is read.
    fn add_element(
        &mut self,
        signature: Signature,
        lead: usize,
        element: Option<RankElement>,
    ) -> Result<bool, AllocError>
        ensures { Steps (add_element signature lead (draft_of self.old) element) result self.new }
    {
        match element {
            Some(element) => {
                self.rank.push(RankPart { lead, element })?;
                Ok(self.to_operation(signature, OperationStage::Ranked))
            }
            None => Ok(false),
        }
    }

    /// An expression is read on by a token.
    fn read_phrase(&mut self, alloc: Global, mark: Mark, at: usize) -> Result<bool, AllocError>
        ensures { Steps (in_phrase self.old.stage (draft_of self.old) (read_on (draft_of self.old).reading mark at)) result self.new }
    {
        let reading = mem::replace(&mut self.reading, Reading::Want);
        match read_on(alloc, reading, &mut self.parts, mark, at)? {
            Some(reading) => {
                self.reading = reading;
                Ok(true)
            }
            None => Ok(false),
        }
    }

    /// The expression that was read, if nothing is open around it.
    fn take_form(&mut self, alloc: Global) -> Result<Option<Phrase>, AllocError>
        ensures { IfOk result (Finds self.old self.new) }
    {
        match mem::replace(&mut self.reading, Reading::Want) {
            Reading::Have(phrase) => {
                let whole = ended(alloc, phrase, &mut self.parts)?;
                if self.parts.is_empty() {
                    return Ok(Some(whole));
                }
                mem::drop(whole);
                Ok(None)
            }
            _ => Ok(None),
        }
    }

    /// The right side of an assignment is read on by a token.
    fn read_right(
        &mut self,
        alloc: Global,
        signature: Signature,
        lead: usize,
        target: Target,
        assign: usize,
        mark: Mark,
        at: usize,
    ) -> Result<bool, AllocError>
        requires { self.old.stage ≡ Stage.Operation signature (OperationStage.Right lead target assign) }
        ensures { Steps (read_right signature lead target assign (draft_of self.old) mark at) result self.new }
    {
        match mark {
            Mark::Semicolon => match self.take_form(alloc)? {
                Some(right) => {
                    let act = Act::Set {
                        target,
                        assign,
                        right,
                    };
                    self.assignments.push(Assignment { lead, act })?;
                    Ok(self.to_operation(signature, OperationStage::AssignmentLead { lead: at }))
                }
                None => Ok(false),
            },
            _ => self.read_phrase(alloc, mark, at),
        }
    }

    /// A table is cleared, and the line is read on from this stage.
    fn add_clear(
        &mut self,
        stage: Stage,
        lead: usize,
        clear_at: usize,
        table: Word,
    ) -> Result<bool, AllocError>
        ensures { Steps (Some (add_clear stage lead clear_at table (draft_of self.old))) result self.new }
    {
        let act = Act::Clear {
            at: clear_at,
            table,
        };
        self.assignments.push(Assignment { lead, act })?;
        Ok(self.to(stage))
    }

    /// After a table that is cleared.
    fn read_cleared(
        &mut self,
        signature: Signature,
        lead: usize,
        clear_at: usize,
        table: Word,
        mark: Mark,
        at: usize,
    ) -> Result<bool, AllocError>
        ensures { Steps (read_operation signature (OperationStage.ClearWhole lead clear_at table) (draft_of self.old) mark at) result
            self.new }
    {
        match mark {
            Mark::Semicolon => {
                let stage = OperationStage::AssignmentLead { lead: at };
                self.add_clear(Stage::Operation { signature, stage }, lead, clear_at, table)
            }
            _ => Ok(false),
        }
    }

    /// An operation reads on by a token, after its parameters.
    fn read_operation(
        &mut self,
        alloc: Global,
        signature: Signature,
        stage: OperationStage,
        mark: Mark,
        at: usize,
    ) -> Result<bool, AllocError>
        requires { self.old.stage ≡ Stage.Operation signature stage }
        ensures { Steps (read_operation signature stage (draft_of self.old) mark at) result self.new }
    {
        match (stage, mark) {
            (OperationStage::RankLead { lead }, mark) => {
                self.add_element(signature, lead, element_of(mark, at))
            }
            (
                OperationStage::Right {
                    lead,
                    target,
                    assign,
                },
                mark,
            ) => self.read_right(alloc, signature, lead, target, assign, mark, at),
            (
                OperationStage::ClearWhole {
                    lead,
                    clear_at,
                    table,
                },
                mark,
            ) => self.read_cleared(signature, lead, clear_at, table, mark, at),
            (OperationStage::Closed, Mark::Rank) => {
                Ok(self.to_operation(signature, OperationStage::RankLead { lead: at }))
            }
            (OperationStage::Ranked, Mark::Comma) if self.rank.len() < 3 => {
                Ok(self.to_operation(signature, OperationStage::RankLead { lead: at }))
            }
            (OperationStage::Ranked, Mark::Colon) => {
                Ok(self.to_operation(signature, OperationStage::AssignmentLead { lead: at }))
            }
            (stage, mark) => Ok(self.read_target(signature, stage, mark, at)),
        }
    }

    /// The target of an assignment is read on by a token.
    fn read_target(
        &mut self,
        signature: Signature,
        stage: OperationStage,
        mark: Mark,
        at: usize,
    ) -> bool
        ensures goes { IsInTarget stage → Stepped (read_operation signature stage (draft_of self.old) mark at) result self.new }
        ensures outside { (IsInTarget stage → ⊥) → result ≡ false }
    {
        match (stage, mark) {
            (OperationStage::AssignmentLead { lead }, Mark::Word(code)) => {
                let word = Word { at, code };
                self.to_operation(signature, OperationStage::TargetWord { lead, word })
            }
            (OperationStage::AssignmentLead { lead }, Mark::Clear) => {
                self.to_operation(signature, OperationStage::ClearBegun { lead, clear_at: at })
            }
            (OperationStage::ClearBegun { lead, clear_at }, Mark::Word(code)) => {
                let stage = OperationStage::ClearWhole {
                    lead,
                    clear_at,
                    table: Word { at, code },
                };
                self.to_operation(signature, stage)
            }
            (OperationStage::TargetWord { lead, word }, Mark::OpenBracket) => {
                let stage = OperationStage::TargetOpen {
                    lead,
                    table: word,
                    open_at: at,
                };
                self.to_operation(signature, stage)
            }
            (OperationStage::TargetWord { lead, word }, Mark::Assign) => {
                let stage = OperationStage::Right {
                    lead,
                    target: Target::Field(word),
                    assign: at,
                };
                self.to_operation(signature, stage)
            }
            (
                OperationStage::TargetOpen {
                    lead,
                    table,
                    open_at,
                },
                Mark::Word(code),
            ) => {
                let stage = OperationStage::TargetKey {
                    lead,
                    table,
                    open_at,
                    key: Word { at, code },
                };
                self.to_operation(signature, stage)
            }
            (
                OperationStage::TargetKey {
                    lead,
                    table,
                    open_at,
                    key,
                },
                Mark::CloseBracket,
            ) => {
                let target = Target::Entry {
                    table,
                    open_at,
                    key,
                    close_at: at,
                };
                self.to_operation(signature, OperationStage::TargetWhole { lead, target })
            }
            (OperationStage::TargetWhole { lead, target }, Mark::Assign) => {
                let stage = OperationStage::Right {
                    lead,
                    target,
                    assign: at,
                };
                self.to_operation(signature, stage)
            }
            _ => false,
        }
    }

    /// A query reads on by a token, after its parameters.
    fn read_query(
        &mut self,
        alloc: Global,
        signature: Signature,
        stage: QueryStage,
        mark: Mark,
        at: usize,
    ) -> Result<bool, AllocError>
        requires { self.old.stage ≡ Stage.Query signature stage }
        ensures { Steps (read_query signature stage (draft_of self.old) mark at) result self.new }
    {
        match (stage, mark) {
            (QueryStage::Right { .. }, mark) => self.read_phrase(alloc, mark, at),
            (QueryStage::Closed, Mark::Colon) => {
                let stage = QueryStage::Colon { colon: at };
                Ok(self.to(Stage::Query { signature, stage }))
            }
            (QueryStage::Colon { colon }, Mark::Sort(sort)) => {
                let stage = QueryStage::Sort {
                    colon,
                    sort_at: at,
                    sort,
                };
                Ok(self.to(Stage::Query { signature, stage }))
            }
            (
                QueryStage::Sort {
                    colon,
                    sort_at,
                    sort,
                },
                Mark::Operator(Operator::Same),
            ) => {
                let stage = QueryStage::Right {
                    colon,
                    sort_at,
                    sort,
                    equal: at,
                };
                Ok(self.to(Stage::Query { signature, stage }))
            }
            _ => Ok(false),
        }
    }

    /// The 2 after the name of a type, if its text has format 2.
    fn read_format(&mut self, type_at: usize, name: Word, mark: Mark, at: usize) -> bool
        ensures { Stepped (format_type type_at name (draft_of self.old) mark at) result self.new }
    {
        match mark {
            Mark::Number(number) => {
                if number == 2 {
                    self.to(Stage::TypeSecond {
                        at: type_at,
                        name,
                        format_at: at,
                    })
                } else {
                    false
                }
            }
            _ => false,
        }
    }

    /// A token that is no newline is read, if a type goes on so.
    pub(crate) fn read_word(
        &mut self,
        alloc: Global,
        mark: Mark,
        at: usize,
    ) -> Result<bool, AllocError>
        ensures { Steps (read_word self.old.stage (draft_of self.old) mark at) result self.new }
    {
        match self.stage {
            Stage::Empty => Ok(match mark {
                Mark::TypeLine => self.to(Stage::TypeBegun { at }),
                _ => false,
            }),
            Stage::TypeBegun { at: type_at } => Ok(match mark {
                Mark::Word(code) => {
                    let name = Word { at, code };
                    self.to(Stage::TypeWhole { at: type_at, name })
                }
                _ => false,
            }),
            Stage::TypeWhole { at: type_at, name } => {
                Ok(self.read_format(type_at, name, mark, at))
            }
            Stage::TypeSecond { .. } => Ok(false),
            Stage::LineStart => Ok(self.begin_line(mark, at)),
            Stage::State { at: line_at, stage } => Ok(match read_state(line_at, stage, mark, at) {
                Some(stage) => self.to(Stage::State { at: line_at, stage }),
                None => false,
            }),
            Stage::Head {
                item,
                at: line_at,
                stage,
            } => self.read_head(item, line_at, stage, mark, at),
            Stage::Operation { signature, stage } => {
                self.read_operation(alloc, signature, stage, mark, at)
            }
            Stage::Query { signature, stage } => self.read_query(alloc, signature, stage, mark, at),
        }
    }

    /// Goes on to the next line.
    fn clear(&mut self, alloc: Global) -> bool
        ensures { (result ≡ true) × (spot_of self.new ≡ between (draft_of self.old).file) }
    {
        self.params = Vec::new(alloc);
        self.rank = Vec::new(alloc);
        self.assignments = Vec::new(alloc);
        self.reading = Reading::Want;
        self.parts = Vec::new(alloc);
        self.stage = Stage::LineStart;
        true
    }

    /// The operation that was read is added to the others.
    fn add_operation(&mut self, alloc: Global, signature: Signature) -> Result<bool, AllocError>
        ensures { Steps (Some (between (with_operation (draft_of self.old).file
            (operation_of signature (draft_of self.old) (draft_of self.old).assignments)))) result self.new }
    {
        let params = mem::replace(&mut self.params, Vec::new(alloc));
        let rank = mem::replace(&mut self.rank, Vec::new(alloc));
        let assignments = mem::replace(&mut self.assignments, Vec::new(alloc));
        self.operations.push(Operation {
            at: signature.at,
            name: signature.name,
            open_at: signature.open_at,
            params: Items::from_vec(params),
            close_at: signature.close_at,
            rank: Items::from_vec(rank),
            assignments: Items::from_vec(assignments),
        })?;
        Ok(self.clear(alloc))
    }

    /// The line of an operation ends.
    fn end_operation(
        &mut self,
        alloc: Global,
        signature: Signature,
        lead: usize,
        target: Target,
        assign: usize,
    ) -> Result<bool, AllocError>
        ensures { Steps (end_right signature lead target assign (draft_of self.old) (form_read (draft_of self.old).reading)) result
            self.new }
    {
        match self.take_form(alloc)? {
            Some(right) => {
                let act = Act::Set {
                    target,
                    assign,
                    right,
                };
                self.assignments.push(Assignment { lead, act })?;
                self.add_operation(alloc, signature)
            }
            None => Ok(false),
        }
    }

    /// The line of an operation ends after a table that is cleared.
    fn end_clear(
        &mut self,
        alloc: Global,
        signature: Signature,
        lead: usize,
        clear_at: usize,
        table: Word,
    ) -> Result<bool, AllocError>
        ensures { Steps (end_operation signature (OperationStage.ClearWhole lead clear_at table) (draft_of self.old)) result self.new }
    {
        let act = Act::Clear {
            at: clear_at,
            table,
        };
        self.assignments.push(Assignment { lead, act })?;
        self.add_operation(alloc, signature)
    }

    /// The line of a query ends.
    fn end_query(
        &mut self,
        alloc: Global,
        signature: Signature,
        colon: usize,
        sort_at: usize,
        sort: Sort,
        equal: usize,
    ) -> Result<bool, AllocError>
        ensures { Steps (end_answer signature colon sort_at sort equal (draft_of self.old) (form_read (draft_of self.old).reading)) result
            self.new }
    {
        match self.take_form(alloc)? {
            Some(right) => {
                let params = mem::replace(&mut self.params, Vec::new(alloc));
                self.queries.push(Query {
                    at: signature.at,
                    name: signature.name,
                    open_at: signature.open_at,
                    params: Items::from_vec(params),
                    close_at: signature.close_at,
                    colon,
                    sort_at,
                    sort,
                    equal,
                    right,
                })?;
                Ok(self.clear(alloc))
            }
            None => Ok(false),
        }
    }

    /// A line ends, if it is whole.
    fn end_line(&mut self, alloc: Global) -> Result<bool, AllocError>
        ensures { Steps (end_line self.old.stage (draft_of self.old)) result self.new }
    {
        match self.stage {
            Stage::Empty => Ok(true),
            Stage::LineStart => Ok(true),
            Stage::TypeWhole { at, name } => {
                *self = Reader::new(alloc, Stage::LineStart, at, name, Format::First);
                Ok(true)
            }
            Stage::TypeSecond {
                at,
                name,
                format_at,
            } => {
                let format = Format::Second { at: format_at };
                *self = Reader::new(alloc, Stage::LineStart, at, name, format);
                Ok(true)
            }
            Stage::State {
                stage: StateStage::Whole { state },
                ..
            } => {
                self.states.push(state)?;
                Ok(self.clear(alloc))
            }
            Stage::Operation {
                signature,
                stage: OperationStage::Right {
                    lead,
                    target,
                    assign,
                },
            } => self.end_operation(alloc, signature, lead, target, assign),
            Stage::Operation {
                signature,
                stage: OperationStage::ClearWhole {
                    lead,
                    clear_at,
                    table,
                },
            } => self.end_clear(alloc, signature, lead, clear_at, table),
            Stage::Query {
                signature,
                stage: QueryStage::Right {
                    colon,
                    sort_at,
                    sort,
                    equal,
                },
            } => self.end_query(alloc, signature, colon, sort_at, sort, equal),
            _ => Ok(false),
        }
    }

    /// The type, if the text ends here.
    fn finish(mut self, alloc: Global) -> Result<Option<TypeText>, AllocError>
        ensures { IfOk result (IsFinished (finish (spot_of self))) }
    {
        if !self.end_line(alloc)? {
            return Ok(None);
        }
        Ok(self.into_text())
    }

    /// The type, between two lines.
    fn into_text(self) -> Option<TypeText>
        ensures { IsFinished (whole_type self.stage (draft_of self)) result }
    {
        match self.stage {
            Stage::LineStart if self.has_queries() => Some(TypeText {
                at: self.at,
                name: self.name,
                format: self.format,
                states: Items::from_vec(self.states),
                operations: Items::from_vec(self.operations),
                queries: Items::from_vec(self.queries),
            }),
            _ => None,
        }
    }

    /// What the token read last adds.
    fn load(&self) -> Load
        ensures { load_form result ≡ load_of self.now.stage (draft_of self.now) }
    {
        match self.stage {
            Stage::Operation {
                stage: OperationStage::Right { .. },
                ..
            } => load_read(&self.reading, &self.parts),
            Stage::Query {
                stage: QueryStage::Right { .. },
                ..
            } => load_read(&self.reading, &self.parts),
            _ => Load {
                depth: 0,
                node: false,
            },
        }
    }

    /// Reads a token; there are this many nodes before it.
    fn take(
        &mut self,
        alloc: Global,
        mark: Mark,
        at: usize,
        nodes: usize,
    ) -> Result<Took, AllocError>
        requires { nodes ≤ 400 }
        ensures { IfOk result (λ took. Takes (spot_of self.old) mark at nodes took (spot_of self.new)) }
    {
        if is_newline(mark) {
            let read = self.end_line(alloc)?;
            return Ok(if read {
                Took::Read(nodes)
            } else {
                Took::Nothing
            });
        }
        if !self.read_word(alloc, mark, at)? {
            return Ok(Took::Nothing);
        }
        let load = self.load();
        let nodes = nodes_with(nodes, load.node);
        Ok(if load.depth > DEPTH_LIMIT || nodes > NODE_LIMIT {
            Took::TooMany
        } else {
            Took::Read(nodes)
        })
    }
}

/// How deep an expression may be.
const DEPTH_LIMIT: usize = 24;

/// How many nodes the expressions of a type may have.
const NODE_LIMIT: usize = 400;

/// What became of a token: it is read, and there are this many nodes up to it; no type goes on with it; or
/// an expression is too deep or too large after it.
enum Took {
    Read(usize),
    Nothing,
    TooMany,
}

fn nodes_with(nodes: usize, node: bool) -> usize
    requires { nodes ≤ 400 }
    ensures { result ≡ nodes + weight node }
{
    if node { nodes + 1 } else { nodes }
}

/// What the tokens of a text are.
#[derive(Drop)]
pub(crate) enum Judgement {
    Whole(TypeText),
    /// No type goes on with the token of this number, counted from 0.
    Syntax(usize),
    TooLarge(usize),
}

/// Judges the tokens of a text.
pub(crate) fn judge(alloc: Global, tokens: &[Token]) -> Result<Judgement, AllocError>
    ensures { IfOk result (Judges (placed tokens.now)) }
{
    let word = Word { at: 0, code: 0 };
    let mut reader = Reader::new(alloc, Stage::Empty, 0, word, Format::First);
    let second = is_second(tokens);
    let mut nodes = 0;
    let mut i = 0;
    'tokens: while i < tokens.len() {
        let token = tokens[i];
        let mark = in_format(second, mark_of(token.kind));
        match reader.take(alloc, mark, token.from, nodes)? {
            Took::Read(count) => nodes = count,
            Took::Nothing => return Ok(Judgement::Syntax(i)),
            Took::TooMany => return Ok(Judgement::TooLarge(i)),
        }
        i += 1;
    }
    match reader.finish(alloc)? {
        Some(text) => Ok(Judgement::Whole(text)),
        None => Ok(Judgement::Syntax(tokens.len())),
    }
}

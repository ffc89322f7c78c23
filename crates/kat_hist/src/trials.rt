//! The histories of a type, with what each asks of the designs of the type.
ghost use Rattle.std.specs.Prelude.{◌≡◌, ◌<◌, ◌⊎◌, IfOk, None, Some, length, replicate, slice_get, slice_set};
ghost use Rattle.std.specs.Bool.{Decides};
ghost use Rattle.std.specs.Option.{IfSome};
ghost use Rattle.kat_design.specs.Designs.{design_form};
ghost use Rattle.kat_design.specs.Small.{IsSmallDesign};
ghost use Rattle.kat_design.specs.Sorted as designs;
ghost use Rattle.kat_histories.specs.Histories.{histories};
ghost use Rattle.kat_histories.specs.Pools.{asks_of};
ghost use Rattle.kat_histories.specs.declared.histories.History as histories;
ghost use Rattle.kat_histories.specs.Differing.{Differs};
ghost use Rattle.kat_hist.specs.Firsts.{IsFirstPlace};
ghost use Rattle.kat_hist.specs.Trials.{AreCards, AreTrials, IsTrialAt};
ghost use Rattle.kat_type.specs.Fits as types;
ghost use Rattle.kat_type.specs.Signatures.{signature_of};
ghost use Rattle.kat_type.specs.Types.{type_form};
ghost use Rattle.kat_type.specs.Within.{IsWithinLimits};

use crate::answering::{asks_of_type, card};
use crate::refuting::{answers_of, is_refuted};
use kat_design::Design;
use kat_histories::{Call, Card, Histories, History, differs_by, histories_fit};
use kat_num::{Items, Value};
use kat_sort_check::{accepted_designs_are_small, accepted_designs_are_well_sorted};
use kat_type::{Done, SeqType};
use std::alloc::{AllocError, Global};
use std::marker::Model;

/// What a history asks of all designs: its operations, and the answers of the type after them, if each order that respects
/// the ranks gives the same. If two orders give different ones, every design differs.
pub(crate) struct Trial {
    pub(crate) ops: Items<Done>,
    pub(crate) answers: Option<Items<Value>>,
}

impl Drop for Trial {
    fn drop(self) {
        let Self { ops: _, answers: _ } = self;
    }
}

/// The histories of a type, on which its designs are tried one after the other. The answers of the type are made when a history
/// is tried, and kept for the next design while there is room: 4,000,000 values of 32 bytes. Of a history that
/// [`Trials::differs`] names its [`Card`] is kept, and a quarter of the room is left to these.
pub struct Trials<'a> {
    ty: &'a SeqType,
    whole: Histories,
    asks: Vec<Call>,
    kept: Vec<Option<Trial>>,
    cards: Vec<Option<Card>>,
    room: usize,
}

impl Drop for Trials<'_> {
    fn drop(self) {
        let Self {
            ty: _,
            whole: _,
            asks: _,
            kept: _,
            cards: _,
            room: _,
        } = self;
    }
}

/// How many values may be kept.
const ROOM: usize = 4_000_000;
/// How many of them are left to cards.
const LEFT_TO_CARDS: usize = 1_000_000;

impl<'a> Model for Trials<'a> {
    ghost use Rattle.std.specs.Coded.{codes};
    ghost use Rattle.kat_expr.specs.contracts.expressions.Expr as e;
    ghost use Rattle.kat_hist.specs.Trials.{AreFor};
    ghost use Rattle.kat_type.specs.Types.{type_form};
    ghost use Rattle.kat_type.specs.declared.types.SeqType.{SeqType};

    ghost Value = { SeqType };

    ghost coded = { Prim.hlevel (codes, e.the_row.coded) };

    ghost view = { λ t. t.ty.now };

    ghost invariant = { λ t. AreFor (type_form t.ty.now) t.whole t.asks.items t.kept.items t.cards.items };
}

impl<'a> Trials<'a> {
    /// The histories of a type. Nothing is tried yet.
    pub fn new(alloc: Global, ty: &'a SeqType) -> Result<Trials<'a>, AllocError>
        requires limits { IsWithinLimits (type_form ty.now) }
        requires sorted { types.IsWellSorted (type_form ty.now) }
        ensures { IfOk result (λ trials. trials ≡ ty.now) }
    {
        let whole = Histories::new(alloc, ty)?;
        let asks = asks_of_type(alloc, ty)?;
        let kept = nothing_kept(alloc, whole.len())?;
        let cards = nothing_kept(alloc, whole.len())?;
        Ok(Trials {
            ty,
            whole,
            asks,
            kept,
            cards,
            room: ROOM,
        })
    }

    /// How many histories there are.
    pub fn len(&self) -> u64
        ensures { result ≡ length (histories (signature_of (type_form self.now))) }
    {
        self.whole.len()
    }

    /// The history with this number, from 0. The number is below `len`.
    pub fn history(&self, alloc: Global, number: u64) -> Result<History, AllocError>
        requires { number < length (histories (signature_of (type_form self.now))) }
        ensures { IfOk result (λ found. slice_get (histories (signature_of (type_form self.now))) number ≡ Some found) }
    {
        self.whole.get(alloc, number)
    }

    /// Whether a design differs from the type on the history with this number.
    ///
    /// The design is accepted (`sort_check`), and its signature is the type's.
    pub fn differs(
        &mut self,
        alloc: Global,
        design: &Design,
        number: u64,
    ) -> Result<bool, AllocError>
        requires within { number < length (histories (signature_of (type_form self.old))) }
        requires sorted { designs.IsWellSorted (design_form design.now) }
        requires agrees { design.now.sig ≡ signature_of (type_form self.old) }
        ensures decides { IfOk result (λ found. (history : histories.History)
            → slice_get (histories (signature_of (type_form self.old))) number ≡ Some history
            → Decides found (Differs (type_form self.old) (design_form design.now) history)) }
        ensures same { self.new ≡ self.old }
    {
        differs_by_card(
            alloc,
            self.ty,
            design,
            &self.whole,
            &mut self.cards,
            &mut self.room,
            number,
        )
    }

    /// The number of the first history on which a design differs from the type, or `None` if it differs on none.
    ///
    /// The design is accepted (`sort_check`), and its signature is the type's.
    pub fn first_difference(
        &mut self,
        alloc: Global,
        design: &Design,
    ) -> Result<Option<u64>, AllocError>
        requires sorted { designs.IsWellSorted (design_form design.now) }
        requires agrees { design.now.sig ≡ signature_of (type_form self.old) }
        ensures first { IfOk result
            (IsFirstPlace (Differs (type_form self.old) (design_form design.now)) (histories (signature_of (type_form self.old)))) }
        ensures same { self.new ≡ self.old }
    {
        accepted_designs_are_well_sorted();
        accepted_designs_are_small();
        first_among(
            alloc,
            self.ty,
            design,
            &self.whole,
            &self.asks,
            &mut self.kept,
            &mut self.room,
        )
    }
}

/// Nothing of this many histories.
fn nothing_kept<T: Drop>(alloc: Global, histories: u64) -> Result<Vec<Option<T>>, AllocError>
    ensures { IfOk result (λ kept. kept.items ≡ replicate histories None) }
{
    let mut kept = Vec::new(alloc);
    for _ in 0..histories {
        kept.push(None)?;
    }
    Ok(kept)
}

/// The trial of the history with this number.
fn trial_of(
    alloc: Global,
    ty: &SeqType,
    whole: &Histories,
    asks: &[Call],
    number: u64,
) -> Result<Trial, AllocError>
    requires within { number < length whole.now }
    requires limits { IsWithinLimits (type_form ty.now) }
    requires whole { whole.now ≡ histories (signature_of (type_form ty.now)) }
    requires asks { asks.now ≡ asks_of (signature_of (type_form ty.now)) }
    ensures { IfOk result (IsTrialAt (type_form ty.now) asks.now whole.now number) }
{
    histories_fit();
    let history = whole.get(alloc, number)?;
    let answers = answers_of(alloc, ty, asks, history.ops.as_slice())?;
    Ok(Trial {
        ops: history.ops,
        answers,
    })
}

/// What is kept of the history with this number.
fn kept_at<T>(kept: &[Option<T>], number: u64) -> Option<&T>
    ensures { IfSome result (λ one. slice_get kept.now number ≡ Some (Some one.now)) }
{
    match kept.get(number as usize) {
        Some(Some(one)) => Some(one),
        _ => None,
    }
}

/// Keeps something of the history with this number, if so much room is left after its size.
fn keep<T: Drop>(
    kept: &mut Vec<Option<T>>,
    room: &mut usize,
    left: usize,
    size: usize,
    number: u64,
    one: T,
)
    ensures { (kept.new.items ≡ kept.old.items) ⊎ (kept.new.items ≡ slice_set kept.old.items number (Some one)) }
{
    if size.saturating_add(left) > *room {
        return;
    }
    let place = number as usize;
    if place >= kept.len() {
        return;
    }
    *room -= size;
    kept[place] = Some(one);
}

/// How much room operations take: the values of their arguments, and two for each of them.
fn size_of(ops: &[Done]) -> usize {
    let mut size: usize = 0;
    for done in ops {
        size = size
            .saturating_add(done.args.as_slice().len())
            .saturating_add(2);
    }
    size
}

/// How much room a trial takes, by the values of its answers and its operations.
fn trial_size(trial: &Trial) -> usize {
    let answers = match &trial.answers {
        Some(answers) => answers.as_slice().len(),
        None => 0,
    };
    answers.saturating_add(size_of(trial.ops.as_slice()))
}

/// How much room a card takes: the values of the arguments of its answers, and three for each of them, and its operations.
fn card_size(card: &Card) -> usize {
    let mut size = size_of(card.ops.as_slice());
    for answer in card.answers.as_slice() {
        size = size
            .saturating_add(answer.args.as_slice().len())
            .saturating_add(3);
    }
    size
}

/// Whether a design differs on the history with this number, by its card. The card is kept from then on, while there is room.
fn differs_by_card(
    alloc: Global,
    ty: &SeqType,
    design: &Design,
    whole: &Histories,
    cards: &mut Vec<Option<Card>>,
    room: &mut usize,
    number: u64,
) -> Result<bool, AllocError>
    requires within { number < length whole.now }
    requires limits { IsWithinLimits (type_form ty.now) }
    requires type_sorted { types.IsWellSorted (type_form ty.now) }
    requires sorted { designs.IsWellSorted (design_form design.now) }
    requires agrees { design.now.sig ≡ signature_of (type_form ty.now) }
    requires whole { whole.now ≡ histories (signature_of (type_form ty.now)) }
    requires cards { AreCards (type_form ty.now) whole.now cards.old.items }
    ensures decides { IfOk result (λ found. (history : histories.History) → slice_get whole.now number ≡ Some history
        → Decides found (Differs (type_form ty.now) (design_form design.now) history)) }
    ensures cards { AreCards (type_form ty.now) whole.now cards.new.items }
{
    histories_fit();
    if let Some(card) = kept_at(cards, number) {
        return differs_by(alloc, design, card);
    }
    let history = whole.get(alloc, number)?;
    let card = card(alloc, ty, &history)?;
    let differs = differs_by(alloc, design, &card)?;
    let size = card_size(&card);
    keep(cards, room, 0, size, number, card);
    Ok(differs)
}

/// Whether a design differs on the history with this number. Its trial is kept from then on, while there is more room than is
/// left to cards.
fn differs_at(
    alloc: Global,
    ty: &SeqType,
    design: &Design,
    whole: &Histories,
    asks: &[Call],
    kept: &mut Vec<Option<Trial>>,
    room: &mut usize,
    number: u64,
) -> Result<bool, AllocError>
    requires within { number < length whole.now }
    requires limits { IsWithinLimits (type_form ty.now) }
    requires sorted { designs.IsWellSorted (design_form design.now) }
    requires small { IsSmallDesign (design_form design.now) }
    requires agrees { design.now.sig ≡ signature_of (type_form ty.now) }
    requires whole { whole.now ≡ histories (signature_of (type_form ty.now)) }
    requires asks { asks.now ≡ asks_of (signature_of (type_form ty.now)) }
    requires kept { AreTrials (type_form ty.now) asks.now whole.now kept.old.items }
    ensures decides { IfOk result (λ found. (history : histories.History) → slice_get whole.now number ≡ Some history
        → Decides found (Differs (type_form ty.now) (design_form design.now) history)) }
    ensures kept { AreTrials (type_form ty.now) asks.now whole.now kept.new.items }
{
    if let Some(trial) = kept_at(kept, number) {
        return is_refuted_by(alloc, ty, design, whole, asks, trial, number);
    }
    let trial = trial_of(alloc, ty, whole, asks, number)?;
    let differs = is_refuted_by(alloc, ty, design, whole, asks, &trial, number)?;
    let size = trial_size(&trial);
    keep(kept, room, LEFT_TO_CARDS, size, number, trial);
    Ok(differs)
}

/// Whether a design differs on the history with this number, of which this is the trial.
fn is_refuted_by(
    alloc: Global,
    ty: &SeqType,
    design: &Design,
    whole: &Histories,
    asks: &[Call],
    trial: &Trial,
    number: u64,
) -> Result<bool, AllocError>
    requires within { number < length whole.now }
    requires sorted { designs.IsWellSorted (design_form design.now) }
    requires small { IsSmallDesign (design_form design.now) }
    requires agrees { design.now.sig ≡ signature_of (type_form ty.now) }
    requires whole { whole.now ≡ histories (signature_of (type_form ty.now)) }
    requires asks { asks.now ≡ asks_of (signature_of (type_form ty.now)) }
    requires trial { IsTrialAt (type_form ty.now) asks.now whole.now number trial.now }
    ensures { IfOk result (λ found. (history : histories.History) → slice_get whole.now number ≡ Some history
        → Decides found (Differs (type_form ty.now) (design_form design.now) history)) }
{
    histories_fit();
    is_refuted(alloc, design, asks, trial.ops.as_slice(), &trial.answers)
}

/// The number of the first of the histories on which a design differs.
fn first_among(
    alloc: Global,
    ty: &SeqType,
    design: &Design,
    whole: &Histories,
    asks: &[Call],
    kept: &mut Vec<Option<Trial>>,
    room: &mut usize,
) -> Result<Option<u64>, AllocError>
    requires limits { IsWithinLimits (type_form ty.now) }
    requires sorted { designs.IsWellSorted (design_form design.now) }
    requires small { IsSmallDesign (design_form design.now) }
    requires agrees { design.now.sig ≡ signature_of (type_form ty.now) }
    requires whole { whole.now ≡ histories (signature_of (type_form ty.now)) }
    requires asks { asks.now ≡ asks_of (signature_of (type_form ty.now)) }
    requires kept { AreTrials (type_form ty.now) asks.now whole.now kept.old.items }
    ensures first { IfOk result (IsFirstPlace (Differs (type_form ty.now) (design_form design.now)) whole.now) }
    ensures kept { AreTrials (type_form ty.now) asks.now whole.now kept.new.items }
{
    'trying: for number in 0..whole.len() {
        if differs_at(alloc, ty, design, whole, asks, kept, room, number)? {
            return Ok(Some(number));
        }
    }
    Ok(None)
}

//! How far a listing has come, and the marks from which it is gone through again.
ghost use Rattle.std.specs.Prelude.{◌≡◌, ◌+◌, ◌≤◌, ℕ, IfErr, IfOk, IfSome, IsSome, Some, slice_get};
ghost use Rattle.kat_design.specs.Designs.{design_form};
ghost use Rattle.kat_gram.specs.Courses.{AreAlike, AreMarksOf, HasPassed, IsGoneThrough, IsMarkOf, IsOnCourse, words_in};
ghost use Rattle.kat_gram.specs.Enumerations.{most_of, passed, stream_in, stream_of};
ghost use Rattle.kat_gram.specs.Listings.{last_number};

use crate::enumerating::{Enumeration, enumeration_at, enumeration_of, find, pass, places_of};
use kat_design::Design;
use kat_num::Items;
use kat_rules::{Setting, Token, is_same_list};
use std::alloc::{AllocError, Global};

/// How many designs are given from one mark to the next.
const MARK_DISTANCE: u64 = 4096;

/// The greatest number of a design after which a listing can go on.
const LAST_NUMBER: u64 = 1_000_001;

/// Where a walk over the designs of a size is once this many were given: how many tokens are left at each of its places.
pub(crate) struct Mark {
    pub(crate) number: u64,
    pub(crate) size: u16,
    pub(crate) places: Items<u8>,
}

impl Drop for Mark {
    fn drop(self) {
        let Self {
            number: _,
            size: _,
            places: _,
        } = self;
    }
}

/// An enumeration, how many designs it has given, and a mark after each 4,096th of them.
pub(crate) struct Course {
    pub(crate) enumeration: Enumeration,
    pub(crate) number: u64,
    pub(crate) marks: Vec<Mark>,
}

impl Drop for Course {
    fn drop(self) {
        let Self {
            enumeration: _,
            number: _,
            marks: _,
        } = self;
    }
}

/// A course at its beginning.
#[tactic(auto, using(crate::proofs::CourseLemmas::passed_none, crate::proofs::CourseLemmas::no_marks))]
pub(crate) fn course_of(alloc: Global, setting: Setting, beyond: u8) -> Result<Course, AllocError>
    ensures course { IfOk result IsOnCourse }
    ensures setting { IfOk result (λ course. course.enumeration.search.setting ≡ setting) }
    ensures beyond { IfOk result (λ course. course.enumeration.beyond ≡ beyond) }
    ensures none { IfOk result (λ course. course.number ≡ 0) }
{
    Ok(Course {
        enumeration: enumeration_of(alloc, setting, beyond)?,
        number: 0,
        marks: Vec::new(alloc),
    })
}

/// The mark after the token list that was found, the one with this number. None if a few bytes can't say it.
#[tactic(auto, using(crate::proofs::CourseLemmas::mark_is))]
fn mark_behind(
    alloc: Global,
    enumeration: &Enumeration,
    number: u64,
) -> Result<Option<Mark>, AllocError>
    requires found { IsSome enumeration.now.found }
    requires passed { (before : ℕ) × (number ≡ before + 1) × HasPassed enumeration.now before }
    ensures { IfOk result (λ mark. IfSome mark (IsMarkOf enumeration.now.search.setting (most_of enumeration.now))) }
{
    let Some(places) = places_of(alloc, enumeration)? else {
        return Ok(None);
    };
    Ok(Some(Mark {
        number,
        size: enumeration.search.size,
        places,
    }))
}

/// Sets a mark after the token list that was found, the one with this number, if its number is a multiple of 4,096.
#[tactic(auto, using(crate::proofs::CourseLemmas::marks_more))]
fn set_mark(
    alloc: Global,
    enumeration: &Enumeration,
    number: u64,
    marks: &mut Vec<Mark>,
) -> Result<(), AllocError>
    requires found { IsSome enumeration.now.found }
    requires passed { (before : ℕ) × (number ≡ before + 1) × HasPassed enumeration.now before }
    requires marks { AreMarksOf enumeration.now.search.setting (most_of enumeration.now) marks.old.items }
    ensures { AreMarksOf enumeration.now.search.setting (most_of enumeration.now) marks.new.items }
{
    if number % MARK_DISTANCE != 0 {
        return Ok(());
    }
    match mark_behind(alloc, enumeration, number)? {
        None => Ok(()),
        Some(mark) => {
            marks.push(mark)?;
            Ok(())
        }
    }
}

/// Passes the token list that was found.
#[tactic(auto, using(crate::proofs::CourseLemmas::passed_found))]
pub(crate) fn pass_found(alloc: Global, course: &mut Course) -> Result<(), AllocError>
    requires found { IsSome course.old.enumeration.found }
    requires few { course.old.number ≤ last_number }
    requires course { IsOnCourse course.old }
    ensures course { IsOnCourse course.new }
    ensures number { IfOk result (λ _. course.new.number ≡ course.old.number + 1) }
    ensures kept { IfErr result (λ _. course.new.number ≡ course.old.number) }
    ensures alike { AreAlike course.old.enumeration course.new.enumeration }
{
    let number = course.number + 1;
    set_mark(alloc, &course.enumeration, number, &mut course.marks)?;
    course.enumeration.found = None;
    course.number = number;
    Ok(())
}

/// Passes the token list that was found, and copies its design.
pub(crate) fn pass_and_copy(
    alloc: Global,
    course: &mut Course,
    design: &Design,
) -> Result<Design, AllocError>
    requires found { IsSome course.old.enumeration.found }
    requires few { course.old.number ≤ last_number }
    requires course { IsOnCourse course.old }
    ensures course { IsOnCourse course.new }
    ensures number { IfOk result (λ _. course.new.number ≡ course.old.number + 1) }
    ensures kept { IfErr result (λ _. course.new.number ≡ course.old.number) }
    ensures alike { AreAlike course.old.enumeration course.new.enumeration }
    ensures copy { IfOk result (λ copy. design_form copy ≡ design_form design.now) }
{
    let copy = design.copy(alloc)?;
    pass_found(alloc, course)?;
    Ok(copy)
}

/// The nearest mark at or before a number.
#[tactic(auto, using(crate::proofs::CourseLemmas::mark_there))]
fn nearest_mark(marks: &[Mark], number: u64) -> Option<&Mark>
    ensures there { IfSome result (λ mark. (place : ℕ) × (slice_get marks.now place ≡ Some mark.now)) }
    ensures before { IfSome result (λ mark. mark.now.number ≤ number) }
{
    let place = u64::min(number / MARK_DISTANCE, marks.len() as u64) as usize;
    if place == 0 {
        return None;
    }
    let mark = &marks[place - 1];
    if mark.number <= number {
        Some(mark)
    } else {
        None
    }
}

/// An enumeration that has passed this many token lists more.
fn passed_on(
    alloc: Global,
    mut enumeration: Enumeration,
    count: u64,
) -> Result<Enumeration, AllocError>
    ensures { IfOk result (λ on. stream_in on ≡ passed count (stream_in enumeration)) }
{
    pass(alloc, &mut enumeration, count)?;
    Ok(enumeration)
}

/// An enumeration of the same designs that has passed this many.
#[tactic(auto, using(crate::proofs::CourseLemmas::passed_from, crate::proofs::CourseLemmas::passed_from_mark, crate::proofs::CourseLemmas::mark_for))]
pub(crate) fn passed_to(
    alloc: Global,
    course: &Course,
    number: u64,
) -> Result<Enumeration, AllocError>
    requires { IsOnCourse course.now }
    ensures { IfOk result (λ enumeration. stream_in enumeration
        ≡ passed number (stream_of course.now.enumeration.search.setting (most_of course.now.enumeration)
        (words_in course.now.enumeration))) }
{
    let setting = course.enumeration.search.setting.copy(alloc)?;
    let beyond = course.enumeration.beyond;
    match nearest_mark(&course.marks, number) {
        None => {
            let enumeration = enumeration_of(alloc, setting, beyond)?;
            passed_on(alloc, enumeration, number)
        }
        Some(mark) => {
            let enumeration = enumeration_at(alloc, setting, beyond, mark)?;
            passed_on(alloc, enumeration, number - mark.number)
        }
    }
}

/// Goes through a course from its beginning until a token list was passed. Whether it is among the first ones.
pub(crate) fn go_through(
    alloc: Global,
    course: &mut Course,
    wanted: &[Token],
) -> Result<bool, AllocError>
    requires course { IsOnCourse course.old }
    requires none { course.old.number ≡ 0 }
    ensures course { IsOnCourse course.new }
    ensures alike { AreAlike course.old.enumeration course.new.enumeration }
    ensures found { IfOk result (λ found. IsGoneThrough course.new wanted.now found) }
{
    'lists: for _ in 0..LAST_NUMBER {
        find(alloc, &mut course.enumeration)?;
        let Some(list) = &course.enumeration.found else {
            return Ok(false);
        };
        let is_wanted = is_same_list(list.as_slice(), wanted);
        pass_found(alloc, course)?;
        if is_wanted {
            return Ok(true);
        }
    }
    Ok(false)
}

//! The listing of all designs of a type up to a size.
ghost use Rattle.std.specs.Prelude.{◌≡◌, ◌+◌, ◌≤◌, [], IfErr, IfOk, List, is_some, length, option_map};
ghost use Rattle.kat_design.specs.Designs.{DesignForm, design_form};
ghost use Rattle.kat_rules.specs.Listed.{IsListing};
ghost use Rattle.kat_gram.specs.Listings.{GivesNext, IsLast, IsResumed, designs_of, given_of, last_number, numbered, to_come, with_next};
ghost use Rattle.kat_gram.specs.Courses.{AreAlike, IsGoneThroughTo, IsOnCourse};
ghost use Rattle.kat_gram.specs.Enumerations.{most_of};
ghost use Rattle.kat_type.specs.Fits.{IsWellSorted};
ghost use Rattle.kat_type.specs.Types.{type_form};

use crate::agreeing::may_be_listed;
use crate::courses::{Course, course_of, go_through, pass_and_copy, pass_found, passed_to};
use crate::enumerating::next_design;
use kat_decoding::decode;
use kat_design::Design;
use kat_rules::{Kinds, design_tokens, setting_of};
use kat_type::SeqType;
use std::alloc::{AllocError, Global};
use std::marker::Model;

/// The designs of a type, of at most a size and of some kinds of components, one after the other, by size and then by
/// token list.
///
/// Contracts see it as the designs that were given, and those that are still to be given. It keeps the last design that was
/// given, and a mark after each 4,096th, from which the designs after it are found again.
pub struct Listing {
    course: Course,
    last: Option<Design>,
}

impl Drop for Listing {
    fn drop(self) {
        let Self { course: _, last: _ } = self;
    }
}

impl Model for Listing {
    ghost use Rattle.kat_gram.specs.Courses.{IsLastOf, IsOnCourse, stream_on};
    ghost use Rattle.kat_gram.specs.Listings.{Stream};

    ghost Value = { Stream };

    ghost view = { λ listing. stream_on listing.course };

    ghost invariant = { λ listing. IsOnCourse listing.course × IsLastOf listing.course listing.last };
}

impl Listing {
    /// The listing of a type's designs of size 1 to `size`, whose components have kinds of the set. No design is given yet.
    pub fn new(alloc: Global, ty: &SeqType, size: u32, kinds: Kinds) -> Result<Listing, AllocError>
        requires sorted { IsWellSorted (type_form ty.now) }
        requires some { 1 ≤ size }
        requires small { size ≤ 24 }
        ensures listed { IfOk result (λ listing. IsListing (type_form ty.now) size kinds (designs_of listing)) }
        ensures first { IfOk result (λ listing. to_come listing ≡ designs_of listing) }
        ensures none { IfOk result (λ listing. given_of listing ≡ []) }
    {
        let setting = setting_of(alloc, ty, kinds)?;
        let course = course_of(alloc, setting, (size - 1) as u8)?;
        Ok(Listing { course, last: None })
    }

    /// The listing of a type's designs as [`Listing::new`] gives it, gone through up to a design: that one is the last one given, and
    /// those after it are still to come. `None` if and only if the listing doesn't have the design, or has it with a number past
    /// 1,000,001.
    ///
    /// It finds the design by going through the listing. On the way it keeps no design.
    pub fn resume(
        alloc: Global,
        ty: &SeqType,
        size: u32,
        kinds: Kinds,
        after: &Design,
    ) -> Result<Option<Listing>, AllocError>
        requires sorted { IsWellSorted (type_form ty.now) }
        requires some { 1 ≤ size }
        requires small { size ≤ 24 }
        ensures { IfOk result (λ found. (designs : List DesignForm) → IsListing (type_form ty.now) size kinds designs
            → IsResumed designs (design_form after.now) found) }
    {
        let setting = setting_of(alloc, ty, kinds)?;
        let mut course = course_of(alloc, setting, (size - 1) as u8)?;
        match gone_through(alloc, &mut course, after)? {
            None => Ok(None),
            Some(last) => Ok(Some(Listing {
                course,
                last: Some(last),
            })),
        }
    }

    /// The next design, or `None` at the end. If memory runs out, it is still to come.
    ///
    /// The last design given, if there is one, has a number of at most 1,000,001.
    pub fn next(&mut self, alloc: Global) -> Result<Option<Design>, AllocError>
        requires { length (given_of self.old) ≤ last_number }
        ensures given { IfOk result (λ next. GivesNext (to_come self.old) (to_come self.new) (option_map design_form next)) }
        ensures behind { IfOk result (λ next. given_of self.new ≡ with_next (given_of self.old) (option_map design_form next)) }
        ensures few { length (given_of self.new) ≤ length (given_of self.old) + 1 }
        ensures whole { IfOk result (λ _. designs_of self.new ≡ designs_of self.old) }
        ensures unchanged { IfErr result (λ _. self.new ≡ self.old) }
    {
        let next = next_design(alloc, &mut self.course.enumeration)?;
        let Some(design) = &next else {
            return Ok(None);
        };
        let last = pass_and_copy(alloc, &mut self.course, design)?;
        self.last = Some(last);
        Ok(next)
    }

    /// Goes on to the next design, which is then the last one given: [`Listing::last`] looks at it. Whether there was one. If
    /// memory runs out, it is still to come.
    ///
    /// It keeps the design and hands out none, while [`Listing::next`] copies what it keeps. The last design given, if there is
    /// one, has a number of at most 1,000,001.
    pub fn advance(&mut self, alloc: Global) -> Result<bool, AllocError>
        requires { length (given_of self.old) ≤ last_number }
        ensures more { IfOk result (λ more. more ≡ is_some (numbered 1 (to_come self.old))) }
        ensures given { IfOk result (λ _. GivesNext (to_come self.old) (to_come self.new) (numbered 1 (to_come self.old))) }
        ensures behind { IfOk result (λ _. given_of self.new ≡ with_next (given_of self.old) (numbered 1 (to_come self.old))) }
        ensures few { length (given_of self.new) ≤ length (given_of self.old) + 1 }
        ensures whole { IfOk result (λ _. designs_of self.new ≡ designs_of self.old) }
        ensures unchanged { IfErr result (λ _. self.new ≡ self.old) }
    {
        let next = next_design(alloc, &mut self.course.enumeration)?;
        if next.is_none() {
            return Ok(false);
        }
        pass_found(alloc, &mut self.course)?;
        self.last = next;
        Ok(true)
    }

    /// How many designs were given: the number of the last one, and 0 if none was.
    pub fn count(&self) -> u64
        ensures { result ≡ length (given_of self.now) }
    {
        self.course.number
    }

    /// The last design that was given; `None` if and only if none was.
    pub fn last(&self) -> Option<&Design>
        ensures { IsLast (option_map (λ d. design_form d.now) result) (given_of self.now) }
    {
        self.last.as_ref()
    }

    /// The design of that number, from 1, whether it was given or not; `None` at 0 and past the end. It is found from the nearest
    /// mark before it.
    pub fn at(&self, alloc: Global, number: u64) -> Result<Option<Design>, AllocError>
        requires { number ≤ 1_000_001 }
        ensures { IfOk result (λ found. option_map design_form found ≡ numbered number (designs_of self.now)) }
    {
        if number == 0 {
            return Ok(None);
        }
        let mut enumeration = passed_to(alloc, &self.course, number - 1)?;
        next_design(alloc, &mut enumeration)
    }
}

/// Goes through a course from its beginning up to a design, and gives that design. `None` if and only if the course doesn't have it
/// among its first 1,000,001.
fn gone_through(
    alloc: Global,
    course: &mut Course,
    after: &Design,
) -> Result<Option<Design>, AllocError>
    requires small { most_of course.old.enumeration ≤ 24 }
    requires course { IsOnCourse course.old }
    requires none { course.old.number ≡ 0 }
    ensures course { IsOnCourse course.new }
    ensures alike { AreAlike course.old.enumeration course.new.enumeration }
    ensures found { IfOk result (IsGoneThroughTo course.new (design_form after.now)) }
{
    let setting = &course.enumeration.search.setting;
    let most = u32::from(course.enumeration.beyond) + 1;
    if !may_be_listed(alloc, setting, most, after)? {
        return Ok(None);
    }
    let tokens = design_tokens(alloc, &setting.constants, after)?;
    let wanted = tokens.as_slice();
    if !go_through(alloc, course, wanted)? {
        return Ok(None);
    }
    let last = decode(alloc, &course.enumeration.search.setting, wanted)?;
    Ok(Some(last))
}

//! The enumeration from which a listing is made: size by size, one token list after the other.
ghost use Rattle.std.specs.Prelude.{◌≡◌, ◌+◌, [], None, false, IfOk, IfSome, is_some, map, option_map, slice_get};
ghost use Rattle.kat_design.specs.Designs.{design_form};
ghost use Rattle.kat_gram.specs.Courses.{AreAlike, IsMarkOf, IsSound, machine_at};
ghost use Rattle.kat_decoding.specs.Decoded.{decoded, is_listed_word};
ghost use Rattle.kat_gram.specs.Enumerations.{GoesOn, IsFound, stream_of, left_of, of_this_size, passed, stream_in, words_behind};
ghost use Rattle.kat_decoding.specs.Words.{listing_machine, listing_start, listing_words, longest};
ghost use Rattle.kat_walk.specs.Marks.{AreOpen, counts_left};
ghost use Rattle.kat_walk.specs.Walks.{to_come};

use crate::courses::Mark;
use kat_decoding::{Point, Search, decode};
use kat_design::Design;
use kat_machine::{LatestComponent, Mode, Place, Shared};
use kat_num::Items;
use kat_rules::{Setting, Token};
use kat_walk::{Walk, next_list, places, walk_at, walk_from};
use std::alloc::{AllocError, Global};

/// What a listing has come to: the designs of the size that a walk goes over, how many sizes there are beyond 1, and a token
/// list that was taken off the walk and isn't given yet.
pub(crate) struct Enumeration {
    pub(crate) search: Search,
    pub(crate) beyond: u8,
    pub(crate) walk: Walk<Point, Token>,
    pub(crate) found: Option<Items<Token>>,
}

impl Drop for Enumeration {
    fn drop(self) {
        let Self {
            search: _,
            beyond: _,
            walk: _,
            found: _,
        } = self;
    }
}

/// A walk over the token lists of the designs of one size.
#[tactic(auto, using(crate::proofs::CourseLemmas::start_open, crate::proofs::CourseLemmas::walk_all, crate::proofs::CourseLemmas::walk_places))]
fn walk_of(alloc: Global, search: &Search) -> Result<Walk<Point, Token>, AllocError>
    ensures all { IfOk result (λ walk. to_come (listing_machine search.now.setting (is_listed_word search.now.setting search.now.size))
        walk ≡ listing_words search.now.setting (is_listed_word search.now.setting search.now.size) search.now.size) }
    ensures places { IfOk result (λ walk. AreOpen (machine_at search.now.setting search.now.size)
        (listing_start search.now.size) walk.stack) }
    ensures most { IfOk result (λ walk. walk.most ≡ longest search.now.size) }
{
    walk_from(
        alloc,
        search,
        start_of(alloc, search.size)?,
        length_of(search.size),
    )
}

/// No token list of a design of this size is longer.
fn length_of(size: u16) -> usize
    ensures { result ≡ longest size }
{
    size as usize * 17 + 1
}

/// Where the machine begins to read a design of this size.
fn start_of(alloc: Global, size: u16) -> Result<Point, AllocError>
    ensures { IfOk result (λ start. start ≡ listing_start size) }
{
    let rows = Shared::new(alloc, Items::from_vec(Vec::new(alloc)))?;
    let flags = Shared::new(alloc, Items::from_vec(Vec::new(alloc)))?;
    let place = Place {
        mode: Mode::Opening,
        rows,
    };
    let latest = LatestComponent {
        read: Items::from_vec(Vec::new(alloc)),
        tie: None,
    };
    Ok((
        (((place, size as usize), flags), latest),
        Items::from_vec(Vec::new(alloc)),
    ))
}

/// An enumeration that begins with the first design, of size 1.
pub(crate) fn enumeration_of(
    alloc: Global,
    setting: Setting,
    beyond: u8,
) -> Result<Enumeration, AllocError>
    ensures all { IfOk result (λ enumeration. stream_in enumeration
        ≡ stream_of setting (beyond + 1) (words_behind setting 0 (beyond + 1))) }
    ensures sound { IfOk result IsSound }
    ensures setting { IfOk result (λ enumeration. enumeration.search.setting ≡ setting) }
    ensures beyond { IfOk result (λ enumeration. enumeration.beyond ≡ beyond) }
{
    let search = Search { setting, size: 1 };
    let walk = walk_of(alloc, &search)?;
    Ok(Enumeration {
        search,
        beyond,
        walk,
        found: None,
    })
}

/// Goes on to the designs of the next size. Whether there is one.
fn go_on(alloc: Global, enumeration: &mut Enumeration) -> Result<bool, AllocError>
    requires none { enumeration.old.found ≡ None }
    requires ended { of_this_size enumeration.old ≡ [] }
    ensures same { stream_in enumeration.new ≡ stream_in enumeration.old }
    ensures more { IfOk result (λ more. GoesOn enumeration.old enumeration.new more) }
    ensures sound { IsSound enumeration.old → IsSound enumeration.new }
    ensures alike { AreAlike enumeration.old enumeration.new }
{
    if enumeration.search.size > u16::from(enumeration.beyond) {
        return Ok(false);
    }
    enumeration.search.size += 1;
    match walk_of(alloc, &enumeration.search) {
        Ok(walk) => {
            enumeration.walk = walk;
            Ok(true)
        }
        Err(error) => {
            enumeration.search.size -= 1;
            Err(error)
        }
    }
}

/// Takes the next token list off the walk, or goes on to the next size. Whether there was something to do.
#[tactic(auto, using(crate::proofs::CourseLemmas::sound_kept, crate::proofs::CourseLemmas::sound_found))]
fn take_step(alloc: Global, enumeration: &mut Enumeration) -> Result<bool, AllocError>
    requires { enumeration.old.found ≡ None }
    ensures same { stream_in enumeration.new ≡ stream_in enumeration.old }
    ensures more { IfOk result (λ more. GoesOn enumeration.old enumeration.new more) }
    ensures sound { IsSound enumeration.old → IsSound enumeration.new }
    ensures alike { AreAlike enumeration.old enumeration.new }
{
    match next_list(alloc, &enumeration.search, &mut enumeration.walk)? {
        Some(list) => {
            enumeration.found = Some(Items::from_vec(list));
            Ok(true)
        }
        None => go_on(alloc, enumeration),
    }
}

/// Finds the next token list, unless one was found already or none is left.
#[tactic(auto, using(crate::proofs::CourseLemmas::alike_on))]
pub(crate) fn find(alloc: Global, enumeration: &mut Enumeration) -> Result<(), AllocError>
    ensures same { stream_in enumeration.new ≡ stream_in enumeration.old }
    ensures found { IfOk result (λ _. IsFound enumeration.new.found (left_of enumeration.new)) }
    ensures sound { IsSound enumeration.old → IsSound enumeration.new }
    ensures alike { AreAlike enumeration.old enumeration.new }
{
    while enumeration.found.is_none() {
        if !take_step(alloc, enumeration)? {
            return Ok(());
        }
    }
    Ok(())
}

/// The design of the token list that was found, if one was.
#[tactic(auto, using(crate::proofs::CourseLemmas::none_found, crate::proofs::CourseLemmas::some_found))]
fn found_design(alloc: Global, enumeration: &Enumeration) -> Result<Option<Design>, AllocError>
    requires { IsFound enumeration.now.found (left_of enumeration.now) }
    ensures given { IfOk result (λ next. option_map design_form next
        ≡ slice_get (map (decoded enumeration.now.search.setting) (left_of enumeration.now)) 0) }
    ensures found { IfOk result (λ next. is_some next ≡ is_some enumeration.now.found) }
{
    match &enumeration.found {
        None => Ok(None),
        Some(list) => {
            let design = decode(alloc, &enumeration.search.setting, list.as_slice())?;
            Ok(Some(design))
        }
    }
}

/// The design of the next token list, which stays the next one. `None` if and only if none is left.
pub(crate) fn next_design(
    alloc: Global,
    enumeration: &mut Enumeration,
) -> Result<Option<Design>, AllocError>
    ensures same { stream_in enumeration.new ≡ stream_in enumeration.old }
    ensures sound { IsSound enumeration.old → IsSound enumeration.new }
    ensures alike { AreAlike enumeration.old enumeration.new }
    ensures given { IfOk result (λ next. option_map design_form next
        ≡ slice_get (map (decoded enumeration.new.search.setting) (left_of enumeration.new)) 0) }
    ensures found { IfOk result (λ next. is_some next ≡ is_some enumeration.new.found) }
{
    find(alloc, enumeration)?;
    found_design(alloc, enumeration)
}

/// Where the walk is, if a few bytes can say it.
pub(crate) fn places_of(
    alloc: Global,
    enumeration: &Enumeration,
) -> Result<Option<Items<u8>>, AllocError>
    ensures { IfOk result (λ places. IfSome places (λ counts. counts ≡ counts_left enumeration.now.walk.stack)) }
{
    match places(alloc, &enumeration.walk)? {
        None => Ok(None),
        Some(places) => Ok(Some(Items::from_vec(places))),
    }
}

/// An enumeration that goes on from a mark.
#[tactic(auto, using(crate::proofs::CourseLemmas::mark_stack))]
pub(crate) fn enumeration_at(
    alloc: Global,
    setting: Setting,
    beyond: u8,
    mark: &Mark,
) -> Result<Enumeration, AllocError>
    requires { IsMarkOf setting (beyond + 1) mark.now }
    ensures { IfOk result (λ enumeration. stream_in enumeration
        ≡ passed mark.now.number (stream_of setting (beyond + 1) (words_behind setting 0 (beyond + 1)))) }
{
    let search = Search {
        setting,
        size: mark.size,
    };
    let start = start_of(alloc, mark.size)?;
    let walk = walk_at(
        alloc,
        &search,
        start,
        length_of(mark.size),
        mark.places.as_slice(),
    )?;
    Ok(Enumeration {
        search,
        beyond,
        walk,
        found: None,
    })
}

/// Passes the next token list. Whether there was one.
fn pass_one(alloc: Global, enumeration: &mut Enumeration) -> Result<bool, AllocError>
    ensures passed { IfOk result (λ _. stream_in enumeration.new ≡ passed 1 (stream_in enumeration.old)) }
    ensures none { IfOk result (λ more. more ≡ false → left_of enumeration.new ≡ []) }
{
    find(alloc, enumeration)?;
    let more = enumeration.found.is_some();
    enumeration.found = None;
    Ok(more)
}

/// Passes this many token lists, or all that are left.
pub(crate) fn pass(
    alloc: Global,
    enumeration: &mut Enumeration,
    count: u64,
) -> Result<(), AllocError>
    ensures { IfOk result (λ _. stream_in enumeration.new ≡ passed count (stream_in enumeration.old)) }
{
    for i in 0..count {
        if !pass_one(alloc, enumeration)? {
            return Ok(());
        }
    }
    Ok(())
}

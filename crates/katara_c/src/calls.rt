//! What the exports do with the replica of a handle.
ghost use Rattle.std.specs.Prelude.{◌≡◌, ◌<◌, ◌≤◌, ◌↔◌, false, IfErr, IfOk};
ghost use Rattle.kat_embed.specs.Accepting.{IsUnaccepted};
ghost use Rattle.kat_embed.specs.Contents.{IsAnother, IsOpened};
ghost use Rattle.kat_embed.specs.Keys.{AreKeysOf, AreNewKeysOf};
ghost use Rattle.kat_embed.specs.Running.{IsRunOf};
ghost use Rattle.katara_c.specs.Kept.{IsAnswered, IsAnsweredBy, IsDone, IsDoneBy, IsNotAsked, IsNotAskedBy, IsNotDone, IsNotDoneBy, IsNotListed, IsNotListedBeyond, IsNotRunBy, IsPlaceOf, SaysDifference, SaysMarks, SaysNoDifference, SaysNoMarks, SaysShare};

use crate::codes::{
    BAD_DESIGN, BAD_PROOF, BAD_SCRIPT, BAD_SHARE, BAD_STATE, BAD_TYPE, DONE, GAP, HANDLE, LIMIT,
    NO_CALL, NO_MARKS, NO_MEMORY, OTHER_DESIGN, OTHER_SIGNATURE, ROOM, call_code, keys_code,
    run_code, sharing_code, step_code,
};
use kat_actions::Verb;
use kat_embed::{AcceptError, Embedded, TaggedValue, run};
use std::alloc::{AllocError, Global};

/// A replica that did nothing, on the heap. If the proof isn't accepted, `condition` and `line` are the place of its first
/// fault.
pub(crate) fn opened(
    alloc: Global,
    ty: &[u8],
    design: &[u8],
    number: u32,
    condition: &mut u64,
    line: &mut u64,
) -> Result<Box<Embedded>, AcceptError>
    requires least { 1 ≤ number }
    requires most { number ≤ 32 }
    ensures opened { IfOk result (λ kept. IsOpened ty.now design.now number kept.value) }
    ensures refused { IfErr result (IsUnaccepted ty.now design.now) }
    ensures place { IfErr result (λ error. IsPlaceOf error condition.new line.new) }
{
    match Embedded::open(alloc, ty, design, number) {
        Ok(replica) => match Box::new(alloc, replica) {
            Ok(kept) => Ok(kept),
            Err(_) => Err(AcceptError::Memory),
        },
        Err(
            AcceptError::BadProof {
                condition: unproved,
                line: bad,
            },
        ) => {
            *condition = u64::from(unproved);
            *line = u64::from(bad);
            Err(AcceptError::BadProof {
                condition: unproved,
                line: bad,
            })
        }
        Err(error) => Err(error),
    }
}

/// Does the operation that a text calls, and says its time; or the code that says why not.
pub(crate) fn act_text(alloc: Global, replica: &mut Embedded, text: &[u8], time: &mut u64) -> u32
    ensures done { result ≡ DONE → IsDone text.now time.new replica.old replica.new }
    ensures refused { DONE < result → IsNotDone replica.old text.now result }
    ensures untouched { DONE < result → replica.new ≡ replica.old }
{
    let call = match replica.call_of(alloc, Verb::Do, text) {
        Ok(call) => call,
        Err(error) => return call_code(error),
    };
    match replica.act(alloc, call) {
        Ok(()) => {
            *time = replica.clock();
            DONE
        }
        Err(error) => step_code(&error),
    }
}

/// Does the operation of a number with what is passed, and says its time; or the code that says why not.
pub(crate) fn act_numbered(
    alloc: Global,
    replica: &mut Embedded,
    number: u32,
    passed: &[TaggedValue],
    time: &mut u64,
) -> u32
    ensures done { result ≡ DONE → IsDoneBy number passed.now time.new replica.old replica.new }
    ensures refused { DONE < result → IsNotDoneBy replica.old number passed.now result }
    ensures untouched { DONE < result → replica.new ≡ replica.old }
{
    let call = match replica.call_numbered(alloc, Verb::Do, number, passed) {
        Ok(call) => call,
        Err(error) => return call_code(error),
    };
    match replica.act(alloc, call) {
        Ok(()) => {
            *time = replica.clock();
            DONE
        }
        Err(error) => step_code(&error),
    }
}

/// The text of the answer to the query that a text calls, or the code that says why not.
pub(crate) fn answer_text(alloc: Global, replica: &Embedded, text: &[u8]) -> Result<Vec<u8>, u32>
    ensures answered { IfOk result (λ answer. IsAnswered replica.now text.now answer.items) }
    ensures refused { IfErr result (IsNotAsked replica.now text.now) }
{
    let call = match replica.call_of(alloc, Verb::Ask, text) {
        Ok(call) => call,
        Err(error) => return Err(call_code(error)),
    };
    match replica.ask(alloc, &call) {
        Ok(answer) => Ok(answer),
        Err(_) => Err(NO_MEMORY),
    }
}

/// The answer to the query of a number with what is passed, or the code that says why not.
pub(crate) fn answer_numbered(
    alloc: Global,
    replica: &Embedded,
    number: u32,
    passed: &[TaggedValue],
) -> Result<TaggedValue, u32>
    ensures answered { IfOk result (IsAnsweredBy replica.now number passed.now) }
    ensures refused { IfErr result (IsNotAskedBy replica.now number passed.now) }
{
    let call = match replica.call_numbered(alloc, Verb::Ask, number, passed) {
        Ok(call) => call,
        Err(error) => return Err(call_code(error)),
    };
    match replica.answer(alloc, &call) {
        Ok(answer) => Ok(answer),
        Err(_) => Err(NO_MEMORY),
    }
}

/// The text of the keys at which the query of a number may find something, or the code that says why not.
pub(crate) fn keys_text(alloc: Global, replica: &Embedded, query: u32) -> Result<Vec<u8>, u32>
    ensures keys { IfOk result (λ text. AreKeysOf replica.now query text.items) }
    ensures refused { IfErr result (IsNotListed replica.now query) }
{
    match replica.keys(alloc, query) {
        Ok(text) => Ok(text),
        Err(error) => Err(call_code(error)),
    }
}

/// The text of those keys at which there is something that a state file lacks, or the code that says why not.
pub(crate) fn new_keys_text(
    alloc: Global,
    replica: &Embedded,
    query: u32,
    known: &[u8],
) -> Result<Vec<u8>, u32>
    ensures keys { IfOk result (λ text. AreNewKeysOf replica.now query known.now text.items) }
    ensures refused { IfErr result (IsNotListedBeyond replica.now query known.now) }
{
    match replica.keys_beyond(alloc, query, known) {
        Ok(text) => Ok(text),
        Err(error) => Err(keys_code(&error)),
    }
}

/// The text of a replica's marks, or the code that says why not.
pub(crate) fn marks_text(alloc: Global, replica: &Embedded) -> Result<Vec<u8>, u32>
    ensures marks { IfOk result (λ text. SaysMarks replica.now text.items) }
    ensures refused { IfErr result (SaysNoMarks replica.now) }
{
    match replica.marks(alloc) {
        Ok(text) => Ok(text),
        Err(error) => Err(sharing_code(&error)),
    }
}

/// The share file of a replica, or the code that says why not.
pub(crate) fn share_text(alloc: Global, replica: &Embedded) -> Result<Vec<u8>, u32>
    ensures share { IfOk result (λ text. SaysShare replica.now text.items) }
    ensures refused { IfErr result (SaysNoMarks replica.now) }
{
    match replica.share(alloc) {
        Ok(text) => Ok(text),
        Err(error) => Err(sharing_code(&error)),
    }
}

/// The packet of what a replica has beyond what is known, or the code that says why not.
pub(crate) fn difference_text(
    alloc: Global,
    replica: &Embedded,
    known: &[u8],
) -> Result<Vec<u8>, u32>
    ensures packet { IfOk result (λ text. SaysDifference replica.now known.now text.items) }
    ensures refused { IfErr result (SaysNoDifference replica.now known.now) }
{
    match replica.difference(alloc, known) {
        Ok(text) => Ok(text),
        Err(error) => Err(sharing_code(&error)),
    }
}

/// Another replica of the type and the design of one, on the heap.
pub(crate) fn another(
    alloc: Global,
    replica: &Embedded,
    number: u32,
) -> Result<Box<Embedded>, AllocError>
    requires least { 1 ≤ number }
    requires most { number ≤ 32 }
    ensures { IfOk result (λ kept. IsAnother replica.now number kept.value) }
{
    let made = replica.another(alloc, number)?;
    let kept = Box::new(alloc, made)?;
    Ok(kept)
}

/// 1 if something changed, else 0.
pub(crate) fn flag(changed: bool) -> u32
    ensures { (result ≡ 0) ↔ (changed ≡ false) }
{
    if changed { 1 } else { 0 }
}

/// What a design writes on a script, or the code that says why not.
pub(crate) fn ran(alloc: Global, ty: &[u8], design: &[u8], script: &[u8]) -> Result<Vec<u8>, u32>
    ensures ran { IfOk result (λ text. IsRunOf ty.now design.now script.now text.items) }
    ensures refused { IfErr result (λ code. IsNotRunBy code ty.now design.now script.now) }
{
    match run(alloc, ty, design, script) {
        Ok(text) => Ok(text),
        Err(error) => Err(run_code(&error)),
    }
}

/// What a code says.
pub(crate) fn message(code: u32) -> &'static [u8] {
    match code {
        DONE => b"done",
        NO_MEMORY => b"out of memory",
        ROOM => b"the answer is longer than the room for it",
        HANDLE => b"the handle has no replica, or has one already",
        BAD_TYPE => b"the type file is refused",
        BAD_DESIGN => b"the design file is refused",
        OTHER_SIGNATURE => b"the design file has another signature than the type",
        BAD_PROOF => b"the proof isn't accepted",
        NO_CALL => b"the call is none that the design has",
        LIMIT => b"a number is past its limit",
        BAD_STATE => b"the text is no state file of the design",
        BAD_SCRIPT => b"the script is refused",
        OTHER_DESIGN => b"the other replica has another design",
        GAP => b"operations are missing that come before those of the packet",
        NO_MARKS => b"the replica doesn't know its marks",
        BAD_SHARE => b"the text is no share file or packet of the design",
        _ => b"no such code",
    }
}

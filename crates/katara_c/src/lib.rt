//! The C interface of replicas: one of an accepted design at a handle that C holds, and bytes in and out.
//!
//! Each call answers a code (`src/codes.rt`). None has a condition: what C passes is judged, and if it can't be used the code
//! says so, and the handle is as it was. What C owes is in the header, `embed/katara.h`.
#![tactic(auto)]

ghost use Rattle.std.specs.Prelude.{◌≡◌, ◌≢◌, ◌<◌, ◌≤◌, None, length as count_of, take};
ghost use Rattle.kat_embed.specs.Contents.{IsAnother, IsOpened, IsRestored};
ghost use Rattle.kat_embed.specs.Keys.{AreKeysOf, AreNewKeysOf};
ghost use Rattle.kat_embed.specs.Numbered.{IsNumberOf};
ghost use Rattle.kat_embed.specs.Running.{IsRunOf};
ghost use Rattle.kat_embed.specs.Sharing.{IsShared};
ghost use Rattle.kat_node.specs.StateData.{node_text};
ghost use Rattle.katara_c.specs.Kept.{Fails, HasNoNumber, Holds, IsAnswered, IsAnsweredBy, IsCaughtUpBy, IsDone, IsDoneBy, IsNotAsked, IsNotAskedBy, IsNotCaughtUp, IsNotDone, IsNotDoneBy, IsNotListed, IsNotListedBeyond, IsNotMade, IsNotOpened, IsNotRunBy, IsNotShared, IsNotTaken, IsNotTakenFrom, IsStateOf, IsTakenIn, SaysDifference, SaysMarks, SaysNoDifference, SaysNoMarks, SaysShare, Turns};
ghost use Rattle.katara_c.specs.Rooms.{IsShort};

mod calls;
mod codes;
mod handle;
mod loose;
mod rooms;

use calls::{
    act_numbered, act_text, another, answer_numbered, answer_text, difference_text, flag,
    keys_text, marks_text, message, new_keys_text, opened, ran, share_text,
};
use codes::{
    DONE, HANDLE, LIMIT, NO_CALL, NO_MEMORY, ROOM, accept_code, merge_code, node_code, share_code,
    sharing_code,
};
use handle::Handle;
use kat_actions::Verb;
use kat_embed::TaggedValue;
use rooms::write_out;
use std::alloc::Global;

/// Opens a handle that has no replica: one that did nothing, of the design in a file whose proof is accepted for a type. If the
/// proof isn't, `condition` and `line` are the place of its first fault.
#[unsafe(no_mangle)]
pub extern "C" fn katara_open(
    alloc: Global,
    handle: &mut Handle,
    ty: &[u8],
    design: &[u8],
    number: u32,
    condition: &mut u64,
    line: &mut u64,
) -> u32
    ensures opened { result ≡ DONE → Holds handle.new.replica (IsOpened ty.now design.now number) }
    ensures refused { DONE < result → IsNotOpened result handle.old.replica ty.now design.now number condition.new line.new }
    ensures untouched { DONE < result → handle.new.replica ≡ handle.old.replica }
{
    if let Some(kept) = handle.take(alloc) {
        handle.put(kept);
        return HANDLE;
    }
    if number < 1 || number > 32 {
        return LIMIT;
    }
    match opened(alloc, ty, design, number, condition, line) {
        Ok(kept) => {
            handle.put(kept);
            DONE
        }
        Err(error) => accept_code(&error),
    }
}

/// Opens a handle that has no replica: one that did nothing, of the type and the design of the replica at another handle, whose proof
/// isn't checked again.
#[unsafe(no_mangle)]
pub extern "C" fn katara_replica_new(
    alloc: Global,
    other: &mut Handle,
    handle: &mut Handle,
    number: u32,
) -> u32
    ensures made { result ≡ DONE → Holds other.old.replica (λ o. Holds handle.new.replica (IsAnother o number)) }
    ensures refused { DONE < result → IsNotMade result other.old.replica handle.old.replica number }
    ensures untouched { DONE < result → handle.new.replica ≡ handle.old.replica }
    ensures same { other.new.replica ≡ other.old.replica }
{
    if let Some(kept) = handle.take(alloc) {
        handle.put(kept);
        return HANDLE;
    }
    if number < 1 || number > 32 {
        return LIMIT;
    }
    let Some(model) = other.take(alloc) else {
        return HANDLE;
    };
    let made = another(alloc, &model, number);
    other.put(model);
    match made {
        Ok(kept) => {
            handle.put(kept);
            DONE
        }
        Err(_) => NO_MEMORY,
    }
}

/// Does an operation, as a script has it (`add "milk" 2`), at one past the replica's clock, which is the time.
#[unsafe(no_mangle)]
pub extern "C" fn katara_do(alloc: Global, handle: &mut Handle, call: &[u8], time: &mut u64) -> u32
    ensures done { result ≡ DONE → Turns handle.old.replica handle.new.replica (IsDone call.now time.new) }
    ensures refused { DONE < result → Fails result handle.old.replica (λ c. IsNotDone c call.now result) }
    ensures untouched { DONE < result → handle.new.replica ≡ handle.old.replica }
{
    let Some(mut kept) = handle.take(alloc) else {
        return HANDLE;
    };
    let code = act_text(alloc, &mut kept, call, time);
    handle.put(kept);
    code
}

/// The answer to a query, as a script has it (`count "milk"`).
#[unsafe(no_mangle)]
pub extern "C" fn katara_ask(
    alloc: Global,
    handle: &mut Handle,
    call: &[u8],
    out: &mut [u8],
    length: &mut usize,
) -> u32
    ensures answered { result ≡ DONE → Holds handle.old.replica (λ c. IsAnswered c call.now (take length.new out.new)) }
    ensures within { result ≡ DONE → length.new ≤ count_of out.old }
    ensures short { result ≡ ROOM → Holds handle.old.replica (λ c. IsShort out.old out.new length.new (IsAnswered c call.now)) }
    ensures refused { result ≢ DONE → result ≢ ROOM → Fails result handle.old.replica (λ c. IsNotAsked c call.now result) }
    ensures untouched { handle.new.replica ≡ handle.old.replica }
{
    let Some(kept) = handle.take(alloc) else {
        return HANDLE;
    };
    let answer = answer_text(alloc, &kept, call);
    handle.put(kept);
    match answer {
        Ok(text) => write_out(&text, out, length),
        Err(code) => code,
    }
}

/// The number of the operation of a name, for `katara_do_numbered`.
#[unsafe(no_mangle)]
pub extern "C" fn katara_operation(
    alloc: Global,
    handle: &mut Handle,
    name: &[u8],
    number: &mut u32,
) -> u32
    ensures found { result ≡ DONE → Holds handle.old.replica (λ c. IsNumberOf Verb.Do c.design.sig name.now number.new) }
    ensures refused { DONE < result → Fails result handle.old.replica (HasNoNumber Verb.Do name.now result) }
    ensures untouched { handle.new.replica ≡ handle.old.replica }
{
    let Some(kept) = handle.take(alloc) else {
        return HANDLE;
    };
    let found = kept.number_of(Verb::Do, name);
    handle.put(kept);
    match found {
        Some(place) => {
            *number = place;
            DONE
        }
        None => NO_CALL,
    }
}

/// The number of the query of a name, for `katara_ask_numbered`.
#[unsafe(no_mangle)]
pub extern "C" fn katara_query(
    alloc: Global,
    handle: &mut Handle,
    name: &[u8],
    number: &mut u32,
) -> u32
    ensures found { result ≡ DONE → Holds handle.old.replica (λ c. IsNumberOf Verb.Ask c.design.sig name.now number.new) }
    ensures refused { DONE < result → Fails result handle.old.replica (HasNoNumber Verb.Ask name.now result) }
    ensures untouched { handle.new.replica ≡ handle.old.replica }
{
    let Some(kept) = handle.take(alloc) else {
        return HANDLE;
    };
    let found = kept.number_of(Verb::Ask, name);
    handle.put(kept);
    match found {
        Some(place) => {
            *number = place;
            DONE
        }
        None => NO_CALL,
    }
}

/// Does the operation of a number with what is passed, as `katara_do` does one.
#[unsafe(no_mangle)]
pub extern "C" fn katara_do_numbered(
    alloc: Global,
    handle: &mut Handle,
    number: u32,
    passed: &[TaggedValue],
    time: &mut u64,
) -> u32
    ensures done { result ≡ DONE → Turns handle.old.replica handle.new.replica (IsDoneBy number passed.now time.new) }
    ensures refused { DONE < result → Fails result handle.old.replica (λ c. IsNotDoneBy c number passed.now result) }
    ensures untouched { DONE < result → handle.new.replica ≡ handle.old.replica }
{
    let Some(mut kept) = handle.take(alloc) else {
        return HANDLE;
    };
    let code = act_numbered(alloc, &mut kept, number, passed, time);
    handle.put(kept);
    code
}

/// The answer to the query of a number with what is passed.
#[unsafe(no_mangle)]
pub extern "C" fn katara_ask_numbered(
    alloc: Global,
    handle: &mut Handle,
    number: u32,
    passed: &[TaggedValue],
    answer: &mut TaggedValue,
) -> u32
    ensures answered { result ≡ DONE → Holds handle.old.replica (λ c. IsAnsweredBy c number passed.now answer.new) }
    ensures refused { DONE < result → Fails result handle.old.replica (λ c. IsNotAskedBy c number passed.now result) }
    ensures untouched { handle.new.replica ≡ handle.old.replica }
{
    let Some(kept) = handle.take(alloc) else {
        return HANDLE;
    };
    let answered = answer_numbered(alloc, &kept, number, passed);
    handle.put(kept);
    match answered {
        Ok(value) => {
            *answer = value;
            DONE
        }
        Err(code) => code,
    }
}

/// The text of the replica's state file.
#[unsafe(no_mangle)]
pub extern "C" fn katara_state(
    alloc: Global,
    handle: &mut Handle,
    out: &mut [u8],
    length: &mut usize,
) -> u32
    ensures written { result ≡ DONE → Holds handle.old.replica (λ c. IsStateOf c (take length.new out.new)) }
    ensures within { result ≡ DONE → length.new ≤ count_of out.old }
    ensures short { result ≡ ROOM → Holds handle.old.replica (λ c. IsShort out.old out.new length.new (IsStateOf c)) }
    ensures refused { result ≢ DONE → result ≢ ROOM → Fails result handle.old.replica (λ c. result ≡ NO_MEMORY) }
    ensures untouched { handle.new.replica ≡ handle.old.replica }
{
    let Some(kept) = handle.take(alloc) else {
        return HANDLE;
    };
    let state = kept.state(alloc);
    handle.put(kept);
    match state {
        Ok(text) => write_out(&text, out, length),
        Err(_) => NO_MEMORY,
    }
}

/// The keys at which the query of a number may find something: those that one of the tables, sets and sums by key has which it reads.
#[unsafe(no_mangle)]
pub extern "C" fn katara_keys(
    alloc: Global,
    handle: &mut Handle,
    query: u32,
    out: &mut [u8],
    length: &mut usize,
) -> u32
    ensures written { result ≡ DONE → Holds handle.old.replica (λ c. AreKeysOf c query (take length.new out.new)) }
    ensures within { result ≡ DONE → length.new ≤ count_of out.old }
    ensures short { result ≡ ROOM → Holds handle.old.replica (λ c. IsShort out.old out.new length.new (AreKeysOf c query)) }
    ensures refused { result ≢ DONE → result ≢ ROOM → Fails result handle.old.replica (λ c. IsNotListed c query result) }
    ensures untouched { handle.new.replica ≡ handle.old.replica }
{
    let Some(kept) = handle.take(alloc) else {
        return HANDLE;
    };
    let keys = keys_text(alloc, &kept, query);
    handle.put(kept);
    match keys {
        Ok(text) => write_out(&text, out, length),
        Err(code) => code,
    }
}

/// Those of these keys at which the replica has something that a state file lacks: an earlier one of its own, if what changed since is
/// sought.
#[unsafe(no_mangle)]
pub extern "C" fn katara_keys_beyond(
    alloc: Global,
    handle: &mut Handle,
    query: u32,
    known: &[u8],
    out: &mut [u8],
    length: &mut usize,
) -> u32
    ensures written { result ≡ DONE → Holds handle.old.replica (λ c. AreNewKeysOf c query known.now (take length.new out.new)) }
    ensures within { result ≡ DONE → length.new ≤ count_of out.old }
    ensures short { result ≡ ROOM → Holds handle.old.replica (λ c. IsShort out.old out.new length.new (AreNewKeysOf c query known.now)) }
    ensures refused { result ≢ DONE → result ≢ ROOM → Fails result handle.old.replica (λ c. IsNotListedBeyond c query known.now result) }
    ensures untouched { handle.new.replica ≡ handle.old.replica }
{
    let Some(kept) = handle.take(alloc) else {
        return HANDLE;
    };
    let keys = new_keys_text(alloc, &kept, query, known);
    handle.put(kept);
    match keys {
        Ok(text) => write_out(&text, out, length),
        Err(code) => code,
    }
}

/// Takes in the state file of another replica of the design. `changed` is 0 if that left the state and the clock as they were.
#[unsafe(no_mangle)]
pub extern "C" fn katara_merge(
    alloc: Global,
    handle: &mut Handle,
    state: &[u8],
    changed: &mut u32,
) -> u32
    ensures merged { result ≡ DONE → Turns handle.old.replica handle.new.replica (IsTakenIn state.now changed.new) }
    ensures refused { DONE < result → Fails result handle.old.replica (λ c. IsNotTaken c state.now result) }
    ensures untouched { DONE < result → handle.new.replica ≡ handle.old.replica }
{
    let Some(mut kept) = handle.take(alloc) else {
        return HANDLE;
    };
    let merged = kept.merge(alloc, state);
    handle.put(kept);
    match merged {
        Ok(told) => {
            *changed = flag(told);
            DONE
        }
        Err(error) => node_code(&error),
    }
}

/// Merges the state of the replica at another handle, as `katara_merge` merges what `katara_state` writes of it.
#[unsafe(no_mangle)]
pub extern "C" fn katara_merge_from(
    alloc: Global,
    handle: &mut Handle,
    other: &mut Handle,
    changed: &mut u32,
) -> u32
    ensures merged { result ≡ DONE → Holds other.old.replica (λ o.
        Turns handle.old.replica handle.new.replica (IsTakenIn (node_text o.node) changed.new)) }
    ensures refused { DONE < result → Fails result other.old.replica (λ o.
        Fails result handle.old.replica (λ c. IsNotTakenFrom c o result)) }
    ensures untouched { DONE < result → handle.new.replica ≡ handle.old.replica }
    ensures same { other.new.replica ≡ other.old.replica }
{
    let Some(packet) = other.take(alloc) else {
        return HANDLE;
    };
    let Some(mut kept) = handle.take(alloc) else {
        other.put(packet);
        return HANDLE;
    };
    let merged = kept.merge_from(alloc, &packet);
    handle.put(kept);
    other.put(packet);
    match merged {
        Ok(told) => {
            *changed = flag(told);
            DONE
        }
        Err(error) => merge_code(error),
    }
}

/// Becomes the replica that a state file of the design has, with its number and clock.
#[unsafe(no_mangle)]
pub extern "C" fn katara_restore(alloc: Global, handle: &mut Handle, state: &[u8]) -> u32
    ensures restored { result ≡ DONE → Turns handle.old.replica handle.new.replica (IsRestored state.now) }
    ensures refused { DONE < result → Fails result handle.old.replica (λ c. IsNotTaken c state.now result) }
    ensures untouched { DONE < result → handle.new.replica ≡ handle.old.replica }
{
    let Some(mut kept) = handle.take(alloc) else {
        return HANDLE;
    };
    let restored = kept.restore(alloc, state);
    handle.put(kept);
    match restored {
        Ok(()) => DONE,
        Err(error) => node_code(&error),
    }
}

/// The text of the replica's marks: for each replica the time of its latest operation in the state.
#[unsafe(no_mangle)]
pub extern "C" fn katara_marks(
    alloc: Global,
    handle: &mut Handle,
    out: &mut [u8],
    length: &mut usize,
) -> u32
    ensures written { result ≡ DONE → Holds handle.old.replica (λ c. SaysMarks c (take length.new out.new)) }
    ensures within { result ≡ DONE → length.new ≤ count_of out.old }
    ensures short { result ≡ ROOM → Holds handle.old.replica (λ c. IsShort out.old out.new length.new (SaysMarks c)) }
    ensures refused { result ≢ DONE → result ≢ ROOM → Fails result handle.old.replica (λ c. SaysNoMarks c result) }
    ensures untouched { handle.new.replica ≡ handle.old.replica }
{
    let Some(kept) = handle.take(alloc) else {
        return HANDLE;
    };
    let marks = marks_text(alloc, &kept);
    handle.put(kept);
    match marks {
        Ok(text) => write_out(&text, out, length),
        Err(code) => code,
    }
}

/// The text of the replica's share file: its marks and its state file.
#[unsafe(no_mangle)]
pub extern "C" fn katara_share(
    alloc: Global,
    handle: &mut Handle,
    out: &mut [u8],
    length: &mut usize,
) -> u32
    ensures written { result ≡ DONE → Holds handle.old.replica (λ c. SaysShare c (take length.new out.new)) }
    ensures within { result ≡ DONE → length.new ≤ count_of out.old }
    ensures short { result ≡ ROOM → Holds handle.old.replica (λ c. IsShort out.old out.new length.new (SaysShare c)) }
    ensures refused { result ≢ DONE → result ≢ ROOM → Fails result handle.old.replica (λ c. SaysNoMarks c result) }
    ensures untouched { handle.new.replica ≡ handle.old.replica }
{
    let Some(kept) = handle.take(alloc) else {
        return HANDLE;
    };
    let share = share_text(alloc, &kept);
    handle.put(kept);
    match share {
        Ok(text) => write_out(&text, out, length),
        Err(code) => code,
    }
}

/// The packet of what the replica has beyond a share file that a peer is known to have; beyond nothing, if there are no bytes.
#[unsafe(no_mangle)]
pub extern "C" fn katara_difference(
    alloc: Global,
    handle: &mut Handle,
    known: &[u8],
    out: &mut [u8],
    length: &mut usize,
) -> u32
    ensures written { result ≡ DONE → Holds handle.old.replica (λ c. SaysDifference c known.now (take length.new out.new)) }
    ensures within { result ≡ DONE → length.new ≤ count_of out.old }
    ensures short { result ≡ ROOM → Holds handle.old.replica (λ c. IsShort out.old out.new length.new (SaysDifference c known.now)) }
    ensures refused { result ≢ DONE → result ≢ ROOM → Fails result handle.old.replica (λ c. SaysNoDifference c known.now result) }
    ensures untouched { handle.new.replica ≡ handle.old.replica }
{
    let Some(kept) = handle.take(alloc) else {
        return HANDLE;
    };
    let packet = difference_text(alloc, &kept, known);
    handle.put(kept);
    match packet {
        Ok(text) => write_out(&text, out, length),
        Err(code) => code,
    }
}

/// Merges a packet, if the replica has all that comes before. `changed` is 0 if that left the state and the clock as they were.
#[unsafe(no_mangle)]
pub extern "C" fn katara_merge_difference(
    alloc: Global,
    handle: &mut Handle,
    packet: &[u8],
    changed: &mut u32,
) -> u32
    ensures merged { result ≡ DONE → Turns handle.old.replica handle.new.replica (IsCaughtUpBy packet.now changed.new) }
    ensures refused { DONE < result → Fails result handle.old.replica (λ c. IsNotCaughtUp c packet.now result) }
    ensures untouched { DONE < result → handle.new.replica ≡ handle.old.replica }
{
    let Some(mut kept) = handle.take(alloc) else {
        return HANDLE;
    };
    let merged = kept.merge_difference(alloc, packet);
    handle.put(kept);
    match merged {
        Ok(told) => {
            *changed = flag(told);
            DONE
        }
        Err(error) => sharing_code(&error),
    }
}

/// Becomes the replica that a share file of the design has, with its number, its clock and its marks.
#[unsafe(no_mangle)]
pub extern "C" fn katara_restore_share(alloc: Global, handle: &mut Handle, share: &[u8]) -> u32
    ensures restored { result ≡ DONE → Turns handle.old.replica handle.new.replica (IsShared share.now) }
    ensures refused { DONE < result → Fails result handle.old.replica (λ c. IsNotShared c share.now result) }
    ensures untouched { DONE < result → handle.new.replica ≡ handle.old.replica }
{
    let Some(mut kept) = handle.take(alloc) else {
        return HANDLE;
    };
    let restored = kept.restore_share(alloc, share);
    handle.put(kept);
    match restored {
        Ok(()) => DONE,
        Err(error) => share_code(&error),
    }
}

/// Gives the memory back. The handle then has no replica.
#[unsafe(no_mangle)]
pub extern "C" fn katara_free(alloc: Global, handle: &mut Handle)
    ensures { handle.new.replica ≡ None }
{
    if let Some(kept) = handle.take(alloc) {
        drop(kept);
    }
}

/// What a design writes on a script, if its proof is accepted for a type: as the program's `run` does.
#[unsafe(no_mangle)]
pub extern "C" fn katara_run(
    alloc: Global,
    ty: &[u8],
    design: &[u8],
    script: &[u8],
    out: &mut [u8],
    length: &mut usize,
) -> u32
    ensures ran { result ≡ DONE → IsRunOf ty.now design.now script.now (take length.new out.new) }
    ensures within { result ≡ DONE → length.new ≤ count_of out.old }
    ensures short { result ≡ ROOM → IsShort out.old out.new length.new (IsRunOf ty.now design.now script.now) }
    ensures refused { result ≢ DONE → result ≢ ROOM → IsNotRunBy result ty.now design.now script.now }
{
    match ran(alloc, ty, design, script) {
        Ok(text) => write_out(&text, out, length),
        Err(code) => code,
    }
}

/// What a code says, in a few words.
#[unsafe(no_mangle)]
pub extern "C" fn katara_message(code: u32, out: &mut [u8], length: &mut usize) -> u32
    ensures within { result ≡ DONE → length.new ≤ count_of out.old }
    ensures short { result ≡ ROOM → out.new ≡ out.old }
{
    write_out(message(code), out, length)
}

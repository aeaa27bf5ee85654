// Calls of the system's read and write, by way of std. What is to be done after each is proved; no contract of the language says what they read or write.
ghost use Rattle.std.specs.Prelude.{◌≡◌, ◌≤◌, length, false, pos, Some, IfOk, IfErr, IfSome};
ghost use Rattle.std.specs.IoError.{raw_os_error};
ghost use Rattle.streams.specs.Calls.{unmoved, after, is_again, Within};
ghost use Rattle.streams.specs.declared.calls.Step.TheVariants.{Failed};

use crate::{CanRead, CanWrite};
use std::fs::File;
use std::io;
use std::io::{ErrorKind, Read, Write};
use std::rt::Files;

// The system's numbers for a call that a signal broke off, and for one that was not to wait.
const EINTR: i32 = 4;

const EAGAIN: i32 = 11;

// What a call did: it moved so many bytes; it moved none, as a read does at the input's end; a signal broke it off; it was not to wait, and
// would have had to; or it failed.
#[derive(Clone, Copy)]
pub enum Step {
    Took(usize),
    Nothing,
    Again,
    Wait,
    Failed,
}

// What a call did, and the error that it answered, if it did.
#[derive(Clone, Copy)]
pub(crate) struct Call {
    pub step: Step,
    pub error: Option<io::Error>,
}

// A call that answered no error, by how many bytes it moved.
fn after(moved: usize) -> Step
    ensures { result ≡ after (pos moved) (pos 0) }
{
    if moved == 0 {
        Step::Nothing
    } else {
        Step::Took(moved)
    }
}

// A call that answered an error, by the system's number for it. An `if` and no match, so that goals go by the numbers' names.
fn unmoved(error: i32) -> Step
    ensures { result ≡ unmoved error }
{
    if error == EINTR {
        Step::Again
    } else if error == EAGAIN {
        Step::Wait
    } else {
        Step::Failed
    }
}

#[tactic(auto, unfolding(crate::specs::Calls::is_again))]
fn is_again(s: Step) -> bool
    ensures { result ≡ is_again s }
{
    matches!(s, Step::Again)
}

// The system's number for an error's kind, of an error that has no number; 0 for a kind that ends the run.
fn number_of_kind(kind: ErrorKind) -> i32 {
    match kind {
        ErrorKind::Interrupted => EINTR,
        ErrorKind::WouldBlock => EAGAIN,
        _ => 0,
    }
}

// The system's number for an error.
fn number_of(error: &io::Error) -> i32
    ensures { IfSome (raw_os_error error.now) (λ code. result ≡ code) }
{
    match error.raw_os_error() {
        Some(code) => code,
        None => number_of_kind(error.kind()),
    }
}

// A call that was handed bytes, or room for them, by what std answers of it.
fn called(moved: io::Result<usize>, handed: &[u8]) -> Call
    requires { IfOk moved (λ n. n ≤ length handed.now) }
    ensures within { Within (length handed.now) result.step }
    ensures ok { IfOk moved (λ n. result.step ≡ after (pos n) (pos 0)) }
    ensures err { IfErr moved (λ e. IfSome (raw_os_error e) (λ code. result.step ≡ unmoved code)) }
    ensures error { IfErr moved (λ e. result.error ≡ Some e) }
{
    match moved {
        Ok(n) => Call {
            step: after(n),
            error: None,
        },
        Err(e) => Call {
            step: unmoved(number_of(&e)),
            error: Some(e),
        },
    }
}

// A call that ends the run, whatever its error.
fn failed(error: io::Error) -> Call
    ensures { result.step ≡ Failed }
{
    Call {
        step: Step::Failed,
        error: Some(error),
    }
}

// A function for reads and one for writes, each time: a read fills what it is handed, and a write only looks at it.

// A read that a signal broke off is tried again.
// A proved loop has to end, so there are as many turns as no run uses up.
#[tactic(auto, unfolding(crate::specs::Calls::Within, crate::specs::Calls::is_again))]
fn read_on<R: Read>(from: &mut R, block: &mut [u8]) -> Call
    ensures within { Within (length block.new) result.step }
    ensures ended { is_again result.step ≡ false }
{
    for _ in 0..u64::MAX {
        let moved = from.read(block);
        let call = called(moved, block);
        if !is_again(call.step) {
            return call;
        }
    }
    failed(io::Error::from_raw_os_error(EINTR))
}

// The same of a write.
#[tactic(auto, unfolding(crate::specs::Calls::Within, crate::specs::Calls::is_again))]
fn write_on<W: Write>(to: &mut W, bytes: &[u8]) -> Call
    ensures within { Within (length bytes.now) result.step }
    ensures ended { is_again result.step ≡ false }
{
    for _ in 0..u64::MAX {
        let moved = to.write(bytes);
        let call = called(moved, bytes);
        if !is_again(call.step) {
            return call;
        }
    }
    failed(io::Error::from_raw_os_error(EINTR))
}

// Standard input, opened anew by its name: what is opened so waits.
#[tactic(auto, unfolding(crate::specs::Calls::Within, crate::specs::Calls::is_again))]
fn read_anew<R: Files>(rt: &R, block: &mut [u8]) -> Call
    ensures within { Within (length block.new) result.step }
    ensures ended { is_again result.step ≡ false }
{
    match File::open(rt, "/proc/self/fd/0") {
        Ok(mut file) => read_on(&mut file, block),
        Err(e) => failed(e),
    }
}

// The same of standard output.
#[tactic(auto, unfolding(crate::specs::Calls::Within, crate::specs::Calls::is_again))]
fn write_anew<R: Files>(rt: &R, bytes: &[u8]) -> Call
    ensures within { Within (length bytes.now) result.step }
    ensures ended { is_again result.step ≡ false }
{
    match File::options().append(true).open(rt, "/proc/self/fd/1") {
        Ok(mut file) => write_on(&mut file, bytes),
        Err(e) => failed(e),
    }
}

// A read of standard input, which waits for the first byte.
pub(crate) fn read<R: CanRead>(rt: &R, block: &mut [u8]) -> Call
    ensures within { Within (length block.new) result.step }
    ensures ended { is_again result.step ≡ false }
{
    let mut input = rt.reader();
    let call = read_on(&mut input, block);
    match call.step {
        Step::Wait => read_anew(rt, block),
        _ => call,
    }
}

// A write to standard output, which waits until it can take a byte.
pub(crate) fn write<R: CanWrite>(rt: &R, bytes: &[u8]) -> Call
    ensures within { Within (length bytes.now) result.step }
    ensures ended { is_again result.step ≡ false }
{
    let mut output = io::writer(rt);
    let call = write_on(&mut output, bytes);
    match call.step {
        Step::Wait => write_anew(rt, bytes),
        _ => call,
    }
}

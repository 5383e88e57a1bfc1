// Standard input and standard output, with every failure told: a read that fails is not the end of the text, and no byte is written after a write that failed.
// A call that a signal interrupted before it moved a byte is made again. Where a call fails, standard error says why. What the system reads and writes no contract
// can say; the numbers here are those that it answered. Whoever calls hands on the streams, which take no bytes.
#![tactic(auto)]

ghost use Rattle.std.specs.Prelude.{◌≡◌, ◌<◌, ◌≤◌, length, take, IfOk, IfErr};

use std::fmt::InlineText;
use std::io;
use std::io::{Error, ErrorKind, Print, Read, Stderr, Stdin, Stdout};

// How often in a row an interrupted call is made again. A proved loop ends, and no run comes to this number.
const TURNS: u64 = u64::MAX;

// A stream failed; `at` is the place that was come to before.
#[derive(Clone, Copy, Debug, PartialEq, Eq)]
pub struct Stopped {
    pub at: usize,
}

// The number of an interrupted call, and of none that failed.
const INTERRUPTED: i32 = 4;

const NO_FAILURE: i32 = 0;

// How many bytes the system's words for a failure and its number have at most.
const WORDS: usize = 256;

// Writes to standard error. Where that fails too, nobody is left to be told.
fn say(error: Stderr, bytes: &[u8]) {
    let _ = error.write_all(bytes);
}

// The system's words for a failure, without the error's number that std writes after them.
fn words_of(text: &str) -> &[u8] {
    match text.rfind(" (os error ") {
        Some(end) => &text.as_bytes()[..end],
        None => text.as_bytes(),
    }
}

// Writes a line to standard error: what failed, a colon and the system's words for why.
fn tell(error: Stderr, what: &[u8], why: Error) {
    let text = InlineText::<WORDS>::of(why);
    say(error, what);
    say(error, b": ");
    say(error, words_of(text.as_str()));
    say(error, b"\n");
}

// Whether a signal interrupted the call that failed so.
fn interrupted(why: &Error) -> bool {
    why.kind() == ErrorKind::Interrupted
}

// One read into all of rest: how many bytes came, 0 at the end of the text.
fn read_once(input: Stdin, rest: &mut [u8]) -> io::Result<usize>
    ensures { IfOk result (λ got. got ≤ length rest.old) }
{
    let mut from = input;
    for _ in 0..TURNS {
        match from.read(rest) {
            Err(why) if interrupted(&why) => {}
            answer => return answer,
        }
    }
    Err(Error::from_raw_os_error(INTERRUPTED))
}

// Reads from place `from` on, until buf is full, the text ends or a read fails: the place past the bytes read. What stands before `from` stays.
pub fn fill(input: Stdin, error: Stderr, buf: &mut [u8], from: usize) -> Result<usize, Stopped>
    requires { from ≤ length buf.old }
    ensures ok { IfOk result (λ at. (from ≤ at) × (at ≤ length buf.new)) }
    ensures err { IfErr result (λ stopped. (from ≤ stopped.at) × (stopped.at ≤ length buf.new)) }
    ensures buf_unchanged { take from buf.new ≡ take from buf.old }
{
    let mut at = from;
    while at < buf.len() {
        match read_once(input, &mut buf[at..]) {
            Ok(0) => break,
            Ok(got) => at += got,
            Err(why) => {
                tell(error, b"dates: the script cannot be read", why);
                return Err(Stopped { at });
            }
        }
    }
    Ok(at)
}

// One write of rest, from its first byte on: how many bytes were taken, never 0.
fn write_once(output: Stdout, rest: &[u8]) -> io::Result<usize>
    ensures { IfOk result (λ took. (0 < took) × (took ≤ length rest.now)) }
{
    for _ in 0..TURNS {
        match output.write_some(rest) {
            Ok(0) => return Err(Error::from_raw_os_error(NO_FAILURE)),
            Err(why) if interrupted(&why) => {}
            answer => return answer,
        }
    }
    Err(Error::from_raw_os_error(INTERRUPTED))
}

// Writes the bytes, each write from the first byte on that the one before it did not take, until all are taken: how many that is. Where a write fails it says how many were
// taken, fewer than all.
pub fn put(output: Stdout, error: Stderr, bytes: &[u8]) -> Result<usize, Stopped>
    ensures ok { IfOk result (λ took. took ≡ length bytes.now) }
    ensures err { IfErr result (λ stopped. stopped.at < length bytes.now) }
{
    let mut at = 0;
    while at < bytes.len() {
        match write_once(output, &bytes[at..]) {
            Ok(took) => at += took,
            Err(why) => {
                tell(error, b"dates: the answers cannot be written", why);
                return Err(Stopped { at });
            }
        }
    }
    Ok(at)
}

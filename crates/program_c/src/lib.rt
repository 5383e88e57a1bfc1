// The program as C calls it: the function of the crate program under its exported name, with the same promise. The streams take no bytes, so C hands on the lent bytes alone.
#![tactic(auto)]

ghost use Rattle.program.specs.Handing.{Runs};

use std::io::{Stderr, Stdin, Stdout};

// Reads standard input into the bytes that are lent, plays the script and writes its answers to standard output. Where a read fails, nothing is carried out; where a write
// fails, nothing more is. What was written is a first part of the answers, and all of them where the status is ENDED or REFUSED. With fewer than READ bytes lent it fails.
#[unsafe(no_mangle)]
pub extern "C" fn dates_main(input: Stdin, output: Stdout, error: Stderr, text: &mut [u8]) -> u32
    ensures { Runs text.new result }
{
    program::dates_main(input, output, error, text)
}

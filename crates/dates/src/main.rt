// The program, as the toolchain runs it: its status is dropped. What is installed and what ./dates runs is the same function behind a `main` of C, which gives the status.
#![tactic(auto)]

fn main(rt: HostRuntime) {
    let mut text = [0u8; program::READ];
    program::dates_main(rt.stdin(), rt.stdout(), rt.stderr(), &mut text);
}

// Answers the command lines of standard input (document 01, "Lines").
#![tactic(auto)]

mod answer;
mod input;
mod standard;

use answer::Session;
use std::io::Print;

fn main(rt: HostRuntime) {
    let mut session = Session::fresh(rt.stdin(), rt.stdout());
    if let Err(failure) = session.answer_input() {
        // Nothing is left to say where that fails too.
        let _ = rt.stderr().write_all(failure.message().as_bytes());
    }
}

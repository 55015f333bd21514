// The sample of the Rust's answers: a script of calls with what they give, made by compare/sample, run by the library that
// `replay` runs: a program of its own, since its input and output lie beside it.
#![tactic(auto)]

use streams::Streams;

fn main(rt: HostRuntime) {
    let mut standard = Streams {
        input: rt.stdin(),
        output: rt.stdout(),
        errors: rt.stderr(),
    };
    replaying::play(&mut standard);
}

// Runs a script of calls, whose commands are in `replaying`. All of it is that library, so that the program of the oracle's
// sample runs the same.
#![tactic(auto)]

use streams::Streams;

fn main(rt: HostRuntime) {
    let mut standard = Streams {
        input: rt.stdin(),
        output: rt.stdout(),
        errors: rt.stderr(),
    };
    replaying::play(&mut standard);
}

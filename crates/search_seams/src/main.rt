// Lines across the places where one read ends and the next begins, and one that ends there. It runs what `search` runs: a program
// of its own, since its input and output lie beside it.
#![tactic(auto)]

use streams::Streams;

fn main(rt: HostRuntime) {
    let mut standard = Streams {
        input: rt.stdin(),
        output: rt.stdout(),
        errors: rt.stderr(),
    };
    searching::run(&mut standard);
}

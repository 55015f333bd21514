// Searches standard input, whose first line has the settings and whose second the literal, and prints the rows and the
// end record. All of it is the library `searching`, so that the programs of the fixed cases run the same.
#![tactic(auto)]

use streams::Streams;

fn main(rt: HostRuntime) {
    let mut standard = Streams {
        input: rt.stdin(),
        output: rt.stdout(),
        errors: rt.stderr(),
    };
    searching::run(&mut standard);
}

// All sixty-four triples of quarter turns on standard output: typed, and as they are shown.
#![tactic(auto)]

fn main(rt: HostRuntime) {
    sheet::run(rt)
}

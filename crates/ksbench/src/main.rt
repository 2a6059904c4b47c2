// The bench's own program: ksbench IMAGE.
#![tactic(auto)]

fn main(rt: HostRuntime) {
    bench::run::run(rt)
}

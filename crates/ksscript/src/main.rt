// A script on standard input drives the machine; specs/ of the crate script say what each line asks and what it is answered.
#![tactic(auto)]

fn main(rt: HostRuntime) {
    script::run(rt);
}

// ksrun on a session of the shared vectors, as it is: its last line has no LF.
#![tactic(auto)]

fn main(rt: HostRuntime) {
    console::run(rt)
}

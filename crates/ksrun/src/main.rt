// The coordinate program of the bench: command lines on standard input, replies on standard output, and behind the last of them the day's tally.
#![tactic(auto)]

fn main(rt: HostRuntime) {
    console::run(rt)
}

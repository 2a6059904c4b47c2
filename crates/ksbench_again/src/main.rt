// ksbench switched off and on within one run: the file is made by the first save, and each start finds what was saved last. What a program of the gate is run
// on is a folder of its own, and empty here.
#![tactic(auto)]

use bench::serve::{serve, serve_last};
use bench::start::start;
use session::due::Manner;
use store::save::{Target, UNLOCKED};

// A sitting: from what the file holds, with these lines, to their end.
fn sitting(rt: HostRuntime, lines: &[u8]) {
    let k = Manner {
        storing: true,
        explaining: false,
    };
    let to = Target {
        path: b"again.img",
        lock: UNLOCKED,
    };
    let mut output = io::buffer();
    let mut image = io::buffer();
    let Ok(mut session) = start(rt, to.path, false) else {
        return;
    };
    let served = serve(rt, k, &mut session, to, lines, &mut output, &mut image);
    if served.is_ok() {
        let _ = serve_last(rt, k, session, to, &mut output, &mut image);
    }
}

// The first sitting is the program's own, over standard input; what it saved is there at the next.
fn main(rt: HostRuntime) {
    let _ = bench::run::run_on(rt, b"again.img");
    sitting(rt, b"kln?\nkrm a\nwpa sks\n");
    sitting(rt, b"ksd a x 1\nkln?\n");
    sitting(rt, b"kln?\nksd a x 2\nwpa sks\nksd b\nwpa\nkrm a\nkln?\n");
    sitting(
        rt,
        b"klt? a\nkln?\nksd c y 1\nken c\nwpa sks\nken a\nwpa sks",
    );
    sitting(rt, b"ken?\nkln?\n");
}

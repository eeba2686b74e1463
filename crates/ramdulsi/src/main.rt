// The program with status 0 always, whatever the answers are. The crate `installed` is the same program with its exit status.
#![tactic(auto)]

fn main(rt: HostRuntime) {
    console::ramdulsi_program(&rt, &rt.stderr());
}

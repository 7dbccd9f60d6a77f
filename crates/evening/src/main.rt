// The desk's calculator for an evening: a fresh table of 512 slots, served with the lines of standard input.
#![tactic(auto)]

use text_evening::Telling;

fn main(rt: HostRuntime) {
    text_serve::on(rt, text_serve::fresh(), Telling::Answers);
}

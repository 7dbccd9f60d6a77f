// The evening again, where an evaluation is answered with why it is what it is (document 02, W-207): a fresh table of
// 512 slots, served with the lines of standard input.
#![tactic(auto)]

use text_evening::Telling;

fn main(rt: HostRuntime) {
    text_serve::on(rt, text_serve::fresh(), Telling::Reasons);
}

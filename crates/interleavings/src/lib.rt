// Several clients of one published history, whatever the order of their messages. The main definition is `Step`, a
// message of one client or a change from outside, and what each step leaves. The law says for every list of steps
// that each client is answered as if it were alone, that what it met is a chain, and that its pages are those of
// its lists. It stands on the answers to one client.
#![tactic(auto)]

mod laws;

pub use laws::interleavings;

// Tests of tasks that are handed over a queue, in threads and with one place, and of lists that are lengthened ahead. Each
// holds whichever allocation is refused. There is no other code here.
#![tactic(auto)]

#[cfg(test)]
mod lengthen_tests;
#[cfg(test)]
mod queue_tests;
#[cfg(test)]
mod thread_tests;

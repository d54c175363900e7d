// Tests of one failure at each place: a read, a write or a load that fails, an input or a class file that is cut or
// changed, and texts that nest a hundred thousand deep. There is no other code here.
#![tactic(auto)]

#[cfg(test)]
mod end_tests;
#[cfg(test)]
mod file_tests;
#[cfg(test)]
mod load_tests;
#[cfg(test)]
mod nesting_tests;

// Erased types and the descriptors that name them in class files (JVMS 4.2.1 and 4.3). The main
// definition is `field`, the one descriptor of an erased type, by which types are told apart and ordered;
// `read_field` and `read_method` are None exactly where the whole text is no descriptor. It stands on
// `lists` alone.
#![tactic(auto)]

mod fields;
mod kinds;
mod methods;
mod names;
mod order;
mod printing;

pub use fields::read_field;
pub use kinds::{Base, Erased, MethodKind};
pub use methods::read_method;
pub use names::{OBJECT, is_internal_name};
pub use printing::{descriptor, method_descriptor};

#[cfg(test)]
mod tests;

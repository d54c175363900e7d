// Classes of Java source texts, as they are published beside those of class files. `source_classes` gives the
// summaries of all classes of some texts; the main definition is `AreSourceClasses`: the names in each text mean
// what they mean over the known classes and the classes of all the texts. `with_source_classes` adds them to the
// classes of a publication; `known_of` says which classes that makes known. It stands on `class_summary`, whose
// definitions say what is kept of one class and what a name denotes, on `java_units`, and on `decl_index`.
#![tactic(auto)]

mod classes;
mod known;
mod laws;
mod outlines;
mod private;
mod published;
mod puts;
mod source;

pub use classes::source_classes;
pub use laws::order_of_texts;
pub use puts::with_source_classes;

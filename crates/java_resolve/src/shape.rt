use crate::word::Word;
use lists::Items;
use sqlite_items::Boxed;

/// An expression, its words told apart and no declaration in it.
#[cycle(shape)]
#[derive(Drop)]
pub enum Shape {
    /// A name with its dots, behind what stands before it.
    Named(Before, Word),
    /// A call with its arguments, and how deep it nests.
    Called(Before, Word, Items<Argument>, u32),
    /// A lambda: its interface, its binders, the cast before its body, its body, and how deep it nests.
    Lambda(Word, Items<Word>, Option<Word>, Boxed<Shape>, u32),
}

/// What stands before a name.
#[cycle(shape)]
#[derive(Drop)]
pub enum Before {
    Nothing,
    /// `new `
    Fresh,
    /// A call and a dot: what stands before the call, its name, its arguments, and how deep it nests.
    Behind(Boxed<Before>, Word, Items<Argument>, u32),
    /// An expression in brackets with its cast, a dot, and how deep it nests.
    InBrackets(Option<Word>, Boxed<Shape>, u32),
}

/// An argument with its cast.
#[cycle(shape)]
#[derive(Drop)]
pub struct Argument {
    pub cast: Option<Word>,
    pub shape: Shape,
}

ghost use Rattle.std.specs.Prelude.{◌≡◌, ◌↔◌, IsTrue};

use lists::{Items, Text};
use terms::{Arg, Decl, Form, Parts, Steps};

/// A comparison that takes no memory.
pub trait Same: Sized {
    /// Whether both are equal.
    fn same(&self, other: &Self) -> bool
        ensures exact { IsTrue result ↔ (self.now ≡ other.now) };
}

impl Same for u32 {
    fn same(&self, other: &u32) -> bool {
        *self == *other
    }
}

impl Same for (u32, u32) {
    fn same(&self, other: &(u32, u32)) -> bool {
        if self.0 != other.0 {
            return false;
        }
        self.1 == other.1
    }
}

impl Same for Text {
    fn same(&self, other: &Text) -> bool {
        Text::same(self, other)
    }
}

/// Whether two lists are equal.
pub fn same_items<T: Same>(items: &Items<T>, others: &Items<T>) -> bool
    ensures exact { IsTrue result ↔ (items.now ≡ others.now) }
{
    let (items, others) = (items.as_slice(), others.as_slice());
    if items.len() != others.len() {
        return false;
    }
    for i in 0..items.len() {
        if !items[i].same(&others[i]) {
            return false;
        }
    }
    true
}

impl Same for Arg {
    fn same(&self, other: &Arg) -> bool {
        match (self, other) {
            (Arg::Plain(wanted), Arg::Plain(wanted_there)) => *wanted == *wanted_there,
            (Arg::Fun(params, result), Arg::Fun(params_there, result_there)) => {
                if *result != *result_there {
                    return false;
                }
                same_items(params, params_there)
            }
            _ => false,
        }
    }
}

impl Same for Form {
    fn same(&self, other: &Form) -> bool {
        match (self, other) {
            (Form::Name(text), Form::Name(there)) => text.same(there),
            (Form::This, Form::This) => true,
            (Form::Call(text), Form::Call(there)) => text.same(there),
            (Form::New(text), Form::New(there)) => text.same(there),
            (Form::Method(text), Form::Method(there)) => text.same(there),
            (Form::Field(text, hidden), Form::Field(there, hidden_there)) => {
                if *hidden != *hidden_there {
                    return false;
                }
                text.same(there)
            }
            (Form::Lambda(text), Form::Lambda(there)) => text.same(there),
            _ => false,
        }
    }
}

impl Same for Decl {
    fn same(&self, other: &Decl) -> bool {
        if self.result != other.result {
            return false;
        }
        if self.weight != other.weight {
            return false;
        }
        if self.crowded != other.crowded {
            return false;
        }
        if !self.form.same(&other.form) {
            return false;
        }
        same_items(&self.args, &other.args)
    }
}

impl Same for Steps {
    fn same(&self, other: &Steps) -> bool {
        if self.bound != other.bound {
            return false;
        }
        if self.binder != other.binder {
            return false;
        }
        self.step == other.step
    }
}

impl Same for Parts {
    fn same(&self, other: &Parts) -> bool {
        if self.goal != other.goal {
            return false;
        }
        if self.limit != other.limit {
            return false;
        }
        if self.depth != other.depth {
            return false;
        }
        if !self.binder.same(&other.binder) {
            return false;
        }
        if !self.steps.same(&other.steps) {
            return false;
        }
        if !same_items(&self.types, &other.types) {
            return false;
        }
        if !same_items(&self.pairs, &other.pairs) {
            return false;
        }
        same_items(&self.decls, &other.decls)
    }
}

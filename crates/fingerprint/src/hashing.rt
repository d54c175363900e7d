use lists::{Items, Text};
use std::hash::{FoldHasher, Hasher};
use terms::{Arg, Decl, Env, Form};

/// The fingerprint of an environment: a hash of 64 bits over all of its parts, with a fixed seed. Equal environments
/// have one fingerprint; two others may have one too, so it decides only who shares. Takes time linear in the parts
/// and no memory.
pub fn print_of(env: &Env) -> u64 {
    let parts = env.parts();
    let mut state = FoldHasher::default();
    put_two(&mut state, parts.goal, parts.limit);
    put_two(&mut state, parts.depth, 0);
    put_text(&mut state, &parts.binder);
    state.write_u32(parts.steps.bound);
    state.write_u32(parts.steps.binder);
    state.write_u32(parts.steps.step);
    put_texts(&mut state, &parts.types);
    put_pairs(&mut state, &parts.pairs);
    put_decls(&mut state, &parts.decls);
    state.finish()
}

/// Adds two numbers as the eight bytes of one.
fn put_two(state: &mut FoldHasher, first: u32, second: u32) {
    state.write_u64(u64::from(first) << 32 | u64::from(second));
}

/// Adds a text, its length first.
fn put_text(state: &mut FoldHasher, text: &Text) {
    state.write_usize(text.len());
    state.write(text.as_bytes());
}

fn put_texts(state: &mut FoldHasher, texts: &Items<Text>) {
    state.write_usize(texts.as_slice().len());
    for text in texts.as_slice() {
        put_text(state, text);
    }
}

fn put_pairs(state: &mut FoldHasher, pairs: &Items<(u32, u32)>) {
    state.write_usize(pairs.as_slice().len());
    for pair in pairs.as_slice() {
        put_two(state, pair.0, pair.1);
    }
}

fn put_decls(state: &mut FoldHasher, decls: &Items<Decl>) {
    state.write_usize(decls.as_slice().len());
    for decl in decls.as_slice() {
        put_decl(state, decl);
    }
}

fn put_decl(state: &mut FoldHasher, decl: &Decl) {
    put_two(state, decl.result, decl.weight);
    put_form(state, &decl.form, decl.crowded);
    state.write_usize(decl.args.as_slice().len());
    for arg in decl.args.as_slice() {
        put_arg(state, arg);
    }
}

/// Adds an argument, the number of its kind first.
fn put_arg(state: &mut FoldHasher, arg: &Arg) {
    match arg {
        Arg::Plain(wanted) => put_two(state, 0, *wanted),
        Arg::Fun(params, result) => {
            put_two(state, 1, *result);
            put_numbers(state, params);
        }
    }
}

fn put_numbers(state: &mut FoldHasher, numbers: &Items<u32>) {
    state.write_usize(numbers.as_slice().len());
    for number in numbers.as_slice() {
        state.write_u32(*number);
    }
}

/// Adds a form and whether its declaration is crowded, the number of the form's kind first.
fn put_form(state: &mut FoldHasher, form: &Form, crowded: bool) {
    match form {
        Form::Name(text) => put_named(state, 0, crowded, text),
        Form::This => put_two(state, 1, u32::from(crowded)),
        Form::Call(text) => put_named(state, 2, crowded, text),
        Form::New(text) => put_named(state, 3, crowded, text),
        Form::Method(text) => put_named(state, 4, crowded, text),
        Form::Field(text, false) => put_named(state, 5, crowded, text),
        Form::Field(text, true) => put_named(state, 6, crowded, text),
        Form::Lambda(text) => put_named(state, 7, crowded, text),
    }
}

fn put_named(state: &mut FoldHasher, kind: u32, crowded: bool, text: &Text) {
    put_two(state, kind, u32::from(crowded));
    put_text(state, text);
}

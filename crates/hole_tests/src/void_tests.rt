// Holes for functional interfaces whose method has no result, and methods without result where they can't stand.
use crate::item_tests::{END, Row, is_listed};
use crate::read_back_tests::are_read_back;
use std::alloc::Global;
use std::test::Fail;

const RUNNABLE: Row<'static> = Row {
    library: &["package java.lang; public interface Runnable { void run(); }"],
    text: "class T { static void go(T t) { Runnable r = ",
    at: END,
    limit: 60,
    items: &[
        (35, "(Runnable) () -> T.go(t)"),
        (50, "(Runnable) () -> T.go(new T())"),
    ],
};

/// The items of a hole for an interface `K` that takes an `int`, in a class with a static method that takes one.
const OF_AN_INT: [(u32, &str); 2] = [(32, "(K) (p0) -> T.go(p0)"), (36, "(K) (p0) -> T.go(k)")];

/// An interface of one method, one that inherits it, and one with a method that has a body.
const LAMBDAS: [Row<'static>; 4] = [
    Row {
        library: &[],
        text: "interface K { void put(int n); } class T { static void go(int k) { K c = ",
        at: END,
        limit: 50,
        items: &OF_AN_INT,
    },
    Row {
        library: &[
            "package q; public interface J { void put(int n); }",
            "package q; public interface K extends J {}",
        ],
        text: "package q; class T { static void go(int k) { K c = ",
        at: END,
        limit: 50,
        items: &OF_AN_INT,
    },
    Row {
        library: &[],
        text: "interface K { void put(int n); default void more() {} } class T { static void go(int k) { K c = ",
        at: END,
        limit: 50,
        items: &OF_AN_INT,
    },
    Row {
        library: &[],
        text: "interface K { void put(int n); } class T { private static void go(int k) { K c = ",
        at: END,
        limit: 50,
        items: &OF_AN_INT,
    },
];

const CONSUMER: Row<'static> = Row {
    library: &[
        "package java.util.function; public interface Consumer<T> { void accept(T t); default Consumer<T> andThen(Consumer<T> after) {} }",
    ],
    text: "import java.util.function.Consumer; class U { static void see(Object o) { Consumer c = ",
    at: END,
    limit: 50,
    items: &[
        (32, "(Consumer) (p0) -> U.see(p0)"),
        (36, "(Consumer) (p0) -> U.see(o)"),
    ],
};

/// A method of `this`, which needs no static one.
const OF_THIS: Row<'static> = Row {
    library: &[],
    text: "interface K { void put(int n); } class T { void go(int k) { K c = ",
    at: END,
    limit: 50,
    items: &[(37, "(K) (p0) -> go(p0)"), (41, "(K) (p0) -> go(k)")],
};

/// A method without result and one with a result are two methods of an interface, so no lambda makes it; and a lambda
/// never drops a value.
const NO_LAMBDA: [Row<'static>; 2] = [
    Row {
        library: &[],
        text: "interface K { void put(int n); int get(); } class T { static void go(int k) { K c = ",
        at: END,
        limit: 50,
        items: &[],
    },
    Row {
        library: &[],
        text: "interface K { void put(int n); } class T { static int of(int k) { return k; } T() { K c = ",
        at: END,
        limit: 50,
        items: &[],
    },
];

/// A method without result gives no value: neither a receiver, nor an argument, nor what is asked for.
const NO_VALUE: [Row<'static>; 2] = [
    Row {
        library: &[],
        text: "class T { void a() {} int b() { int r = ",
        at: END,
        limit: 45,
        items: &[(25, "b()"), (40, "new T().b()")],
    },
    Row {
        library: &[],
        text: "class T { void a() {} int b(Object o) { int r = ",
        at: END,
        limit: 55,
        items: &[
            (30, "b(o)"),
            (40, "b(this)"),
            (45, "new T().b(o)"),
            (55, "b(new T())"),
            (55, "new T().b(this)"),
        ],
    },
];

/// A method with a result is crowded by one without that takes as much.
const CROWDED: Row<'static> = Row {
    library: &[],
    text: "class T { static int go(Object o) { return 0; } static void go(String s) { int r = ",
    at: END,
    limit: 45,
    items: &[(35, "T.go((Object) s)")],
};

#[test]
fn a_lambda_calls_a_method_without_result(rt: HostRuntime) -> Result<(), Fail> {
    assert!(rt; is_listed(rt.alloc(), &RUNNABLE)?);
    assert!(rt; is_listed(rt.alloc(), &CONSUMER)?);
    assert!(rt; is_listed(rt.alloc(), &OF_THIS)?);
    for row in &LAMBDAS {
        assert!(rt; is_listed(rt.alloc(), row)?);
    }
    Ok(())
}

#[test]
fn a_lambda_drops_no_value(rt: HostRuntime) -> Result<(), Fail> {
    for row in &NO_LAMBDA {
        assert!(rt; is_listed(rt.alloc(), row)?);
    }
    Ok(())
}

#[test]
fn a_method_without_result_gives_no_value(rt: HostRuntime) -> Result<(), Fail> {
    for row in &NO_VALUE {
        assert!(rt; is_listed(rt.alloc(), row)?);
    }
    assert!(rt; is_listed(rt.alloc(), &CROWDED)?);
    Ok(())
}

#[test]
fn lambdas_without_result_are_read_back(rt: HostRuntime) -> Result<(), Fail> {
    assert!(rt; are_read_back(rt.alloc(), &RUNNABLE)?);
    assert!(rt; are_read_back(rt.alloc(), &OF_THIS)?);
    Ok(())
}

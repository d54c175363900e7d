ghost use Rattle.std.specs.Prelude.{◌≡◌, ◌+◌, ◌==◌, ◌<◌, ◌≤◌, ◌^◌, ◌++◌, ◌∷◌, [], length, MatchBool};
ghost use mathlib.Core.List.{IsPrefix};
ghost use Rattle.version_board.specs.Logs.{head_of, IsLonger};

use decl_index::Change;
use logbook::{Gain, Offer, Plain, Play, Rule, Seen, Start, Word};
use std::marker::{Brand, Model, PhantomData};

/// The rule of a log: its word is the number of its changes.
pub struct Counted;

impl Rule<Change, u64> for Counted {
    ghost use Rattle.std.specs.Prelude.{[]};
    ghost use base.Fml.{ftrue};
    ghost use Rattle.version_board.specs.Logs.{IsKept};

    ghost holds = { λ cells log. IsKept cells log };

    ghost first = { [] };

    ghost hinted = { λ n log. Unit {0} };

    ghost shows = { λ log. [] };

    ghost keeps = { λ names log. ftrue };

    ghost moves = { λ ask before after answer. Unit {0} };
}

/// Callers of a log trade nothing.
pub struct Nothing;

impl Gain<Change, u64> for Nothing {
    ghost use base.Fml.{ftrue};

    ghost after = { λ names about answer. ftrue };
}

/// The step that adds a change.
pub struct Add;

impl Play<Change, u64> for Add {
    ghost use Rattle.version_board.specs.Logs.{Adds};

    ghost then = { Adds };
}

impl Plain<Change, Change, u64> for Add {
    ghost use Rattle.std.specs.Prelude.{None};

    ghost ask = { λ change. change };

    ghost state = { λ change. None };
}

/// Which board it is, and the journal that it began with. The caller that starts a board picks it, by `Brand`.
pub trait Naming {
    ghost use Rattle.std.specs.Prelude.{List};
    ghost use Rattle.decl_index.specs.declared.change.Change.{Change};
    ghost use Rattle.logbook.specs.Pages.{Book};

    ghost book: { Book };

    ghost first: { List Change };
}

impl Naming for Brand {
    ghost use Rattle.std.specs.Prelude.{[]};

    ghost book = { record { number = 0; log_name = 0; cells_name = 0 } };

    ghost first = { [] };
}

/// A new log, of no change and with no name yet.
pub struct Opened {
    head: Word<Change, u64, Counted>,
    seen: Seen<Change, u64, Counted>,
    pub ghost empty: { seen.log ≡ [] },
    pub ghost head_is: { head ≡ head_of seen.book },
}

impl Opened {
    /// Opens a log. Each log is another one.
    pub fn new() -> Opened {
        let (seen, mut first, _second) = Seen::open(Start::alone(), 0, 0);
        Opened {
            head: Word::tracked(0, &mut first),
            seen,
        }
    }

    /// The log under the name of its board, and its empty prefix.
    pub fn named<J: Naming>(self) -> (Log<J>, Prefix<J>)
        requires { self.seen.book ≡ J.book }
        ensures empty { result.1 ≡ [] }
    {
        let Opened { head, seen } = self;
        (
            Log {
                head,
                of: PhantomData,
            },
            Prefix {
                count: 0,
                seen,
                of: PhantomData,
            },
        )
    }
}

/// The log of the changes that a board was given since it began. It holds their number alone.
#[derive(Drop)]
pub struct Log<J: Naming> {
    head: Word<Change, u64, Counted>,
    of: PhantomData<J>,
    ghost head_is: { head ≡ head_of J.book },
}

/// A prefix of the log of a board. It holds the number of its changes alone; contracts see it as the changes.
#[derive(Drop)]
pub struct Prefix<J: Naming> {
    count: u64,
    seen: Seen<Change, u64, Counted>,
    of: PhantomData<J>,
}

impl<J: Naming> Model for Prefix<J> {
    ghost use Rattle.std.specs.Prelude.{◌≡◌, List, length};
    ghost use Rattle.decl_index.specs.declared.change.Change.{Change};

    ghost Value = { List Change };

    ghost view = { λ f. f.seen.log };

    ghost invariant = { λ f. (f.count ≡ length f.seen.log) × (f.seen.book ≡ J.book) };
}

impl<J: Naming> Prefix<J> {
    /// How many changes it has.
    pub fn len(&self) -> u64
        ensures count { result ≡ length self.now }
    {
        self.count
    }

    /// The same prefix once more. It takes no memory.
    pub fn again(&self) -> Prefix<J>
        ensures same { result ≡ self.now }
    {
        Prefix {
            count: self.count,
            seen: self.seen.again(),
            of: PhantomData,
        }
    }

    /// Whether the other is a prefix of this one. It is, unless it is longer, and then this one is a prefix of it.
    pub fn begins_with(&self, other: &Prefix<J>) -> bool
        ensures begins { MatchBool result (IsPrefix other.now self.now) (IsLonger self.now other.now) }
    {
        let mut both = self.seen.again();
        both.learn(&other.seen);
        if other.count > self.count {
            return false;
        }
        true
    }

    /// Adds a change at the end of the log where this is the whole log, and says whether it did. Else the log is
    /// longer, and this becomes all of it.
    pub fn add(&mut self, book: &Log<J>, change: &Change) -> bool
        requires { length self.old < 2 ^ 62 }
        ensures added { MatchBool result (self.new ≡ self.old ++ change.now ∷ []) (IsLonger self.old self.new) }
    {
        let mut offer: Offer<Change, u64, Counted, Nothing> = self
            .seen
            .plain::<Nothing, Change, Add>(change);
        let mut pen = self.seen.no_pen();
        let count = self.count;
        let found = book
            .head
            .compare_exchange::<Add, Nothing>(
                count,
                count + 1,
                &mut self.seen,
                &mut offer,
                &mut pen,
            );
        self.count = if found == count { count + 1 } else { found };
        found == count
    }

    /// The longer of two prefixes; the other is a prefix of it.
    pub fn longer(&self, other: &Prefix<J>) -> Prefix<J>
        ensures this { IsPrefix self.now result }
        ensures that { IsPrefix other.now result }
    {
        if self.begins_with(other) {
            self.again()
        } else {
            other.again()
        }
    }
}

ghost use Rattle.std.specs.Prelude.{◌≡◌, ◌<◌, ◌≤◌, ◌+◌, ◌^◌, ◌++◌, ◌∷◌, [], length, slice_get};
ghost use Rattle.terms.specs.Typing.{joined, rows};

/// How many rows and nested lambdas there are at most together.
pub const MOST_ROWS: u32 = 3;

/// The parameter types of the lambdas around a term, outermost first. The first `used` rows count.
#[derive(Clone, Copy, Debug)]
pub struct Ctx<'a> {
    pub first: &'a [u32],
    pub second: &'a [u32],
    pub third: &'a [u32],
    pub used: u32,
}

impl<'a> Ctx<'a> {
    /// The context outside of all lambdas.
    #[tactic(auto, unfolding(crate::specs::Typing::rows))]
    pub fn empty() -> Ctx<'a>
        ensures rows { rows result ≡ [] }
        ensures used { result.used ≡ 0 }
    {
        Ctx {
            first: &[],
            second: &[],
            third: &[],
            used: 0,
        }
    }

    /// The context with one more row, the innermost.
    #[tactic(auto, unfolding(crate::specs::Typing::rows))]
    pub fn with(self, row: &'a [u32]) -> Ctx<'a>
        requires { self.used < 3 }
        ensures rows { rows result ≡ rows self.entry ++ row.entry.now ∷ [] }
        ensures used { result.used ≡ self.entry.used + 1 }
    {
        match self.used {
            0 => Ctx {
                first: row,
                used: 1,
                ..self
            },
            1 => Ctx {
                second: row,
                used: 2,
                ..self
            },
            _ => Ctx {
                third: row,
                used: 3,
                ..self
            },
        }
    }
}

impl Ctx<'_> {
    /// How many variables there are.
    #[tactic(auto, unfolding(crate::specs::Typing::rows, crate::specs::Typing::joined))]
    pub fn variables(&self) -> usize
        requires { self.now.used ≤ 3 }
        ensures value { result ≡ length (joined (rows self.now)) }
        ensures small { result < 2 ^ 63 }
    {
        if self.used == 0 {
            return 0;
        }
        if self.used == 1 {
            return self.first.len();
        }
        if self.used == 2 {
            return self.first.len() + self.second.len();
        }
        self.first.len() + self.second.len() + self.third.len()
    }

    /// The type of the variable with this number, counted over the rows from the outermost.
    #[tactic(auto, unfolding(crate::specs::Typing::rows, crate::specs::Typing::joined))]
    pub fn variable(&self, number: u32) -> Option<u32>
        requires { self.now.used ≤ 3 }
        ensures value { result ≡ slice_get (joined (rows self.now)) number }
    {
        let n = number as usize;
        if self.used == 0 {
            return None;
        }
        if n < self.first.len() {
            return Some(self.first[n]);
        }
        let n = n - self.first.len();
        if self.used == 1 {
            return None;
        }
        if n < self.second.len() {
            return Some(self.second[n]);
        }
        let n = n - self.second.len();
        if self.used == 2 {
            return None;
        }
        self.third.get(n).copied()
    }
}

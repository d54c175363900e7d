ghost use Rattle.std.specs.Prelude.{◌≡◌, ◌<◌};
ghost use Rattle.reconstruction.specs.NumberedPlaces.{with_lambda};

/// The declarations whose lambdas are around a place, outermost first: k + 1 for declaration k, and 0 behind the
/// last of them. There are at most three, as in a context of `terms`.
#[derive(Clone, Copy, Debug)]
pub struct Lambdas {
    pub first: u32,
    pub second: u32,
    pub third: u32,
}

/// No lambda.
pub const NO_LAMBDAS: Lambdas = Lambdas {
    first: 0,
    second: 0,
    third: 0,
};

impl Lambdas {
    /// These and the lambda that a declaration wants, as the innermost.
    pub fn with_lambda(self, decl: u32) -> Lambdas
        requires number { decl < 2147483648 }
        ensures value { result ≡ with_lambda self decl }
    {
        let inner = decl + 1;
        if self.first == 0 {
            return Lambdas {
                first: inner,
                second: 0,
                third: 0,
            };
        }
        if self.second == 0 {
            return Lambdas {
                second: inner,
                third: 0,
                ..self
            };
        }
        Lambdas {
            third: inner,
            ..self
        }
    }
}

/// A place where a term is wanted: the lambdas around it, and the state, which says which types are bound, how
/// many lambdas may nest, and the type.
#[derive(Clone, Copy, Debug)]
pub struct NumberedPlace {
    pub lambdas: Lambdas,
    pub state: u32,
}

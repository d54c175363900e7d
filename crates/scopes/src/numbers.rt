ghost use Rattle.std.specs.Prelude.{◌≡◌, ◌+◌, ◌<◌, ◌≤◌, ◌^◌, length, Some, None, IfOk};
ghost use Rattle.type_names.specs.Descriptors.{field};
ghost use Rattle.offers.specs.Sorting.{Rises};
ghost use Rattle.offers.specs.Types.{place_in};
ghost use Rattle.scopes.specs.Kinds.{number_in};
ghost use Rattle.scopes.specs.Numbers.{is_early_base, is_early, early_ones, moved};

use std::alloc::AllocError;
use std::cmp::Ordering;
use std::marker::Model;
use type_names::{Base, Erased};

/// The types of an environment, in rising byte order of their descriptors, and the numbers by which its declarations
/// name them. `void` says whether one of them has no value, `place` is its number, or how many types there are.
#[derive(Drop)]
pub(crate) struct Numbers<'a> {
    types: &'a [Erased],
    void: bool,
    place: usize,
}

impl<'a> Model for Numbers<'a> {
    ghost use Rattle.scopes.specs.Kinds.{Kinds};
    ghost use Rattle.scopes.specs.Numbers.{AreKinds};

    ghost Value = { Kinds };

    ghost view = { λ n. record { types = n.types.now; void = n.void } };

    ghost invariant = { λ n. AreKinds (record { types = n.types.now; void = n.void }) n.place };
}

/// The place of a type among types that rise, and how many there are where it isn't one of them.
fn place_in(types: &[Erased], kind: &Erased) -> usize
    requires { Rises field types.now }
    ensures exact { result ≡ place_in types.now kind.now }
    ensures within { result ≤ length types.now }
{
    let mut low = 0;
    let mut high = types.len();
    while low < high {
        let middle = low + (high - low) / 2;
        match kind.compare(&types[middle]) {
            Ordering::Less => high = middle,
            Ordering::Equal => return middle,
            Ordering::Greater => low = middle + 1,
        }
    }
    types.len()
}

/// Whether the letter of a type without dimensions stands before `V`.
fn is_early_base(base: &Base) -> bool
    ensures { result ≡ is_early_base base.now }
{
    !matches!(base, Base::Boolean)
}

/// Whether the descriptor of a type stands before `V`.
fn is_early(kind: &Erased) -> bool
    ensures { result ≡ is_early kind.now }
{
    kind.dims == 0 && is_early_base(&kind.base)
}

/// How many of these types stand before the first whose descriptor comes after `V`.
fn early_ones(types: &[Erased]) -> usize
    ensures exact { result ≡ early_ones types.now }
    ensures within { result ≤ length types.now }
{
    for (i, kind) in types.iter().enumerate() {
        if !is_early(kind) {
            return i;
        }
    }
    types.len()
}

/// The number of the type without a value, and how many types there are where there is none.
fn void_place(types: &[Erased], void: bool) -> usize
    ensures exact { result ≡ number_in (record { types = types.now; void = void }) None }
    ensures within { result ≤ length types.now }
{
    if void {
        return early_ones(types);
    }
    types.len()
}

/// The number of what stands at a place, where one more stands at `place`.
fn moved(place: usize, at: u32) -> u32
    requires { at + 1 < 2 ^ 32 }
    ensures { result ≡ moved place at }
{
    if (at as usize) < place {
        return at;
    }
    at + 1
}

impl<'a> Numbers<'a> {
    /// The numbers of types that rise by their descriptors, and of the one without a value; want of memory where there
    /// are 2^32 - 1 or more.
    pub fn new(types: &'a [Erased], void: bool) -> Result<Numbers<'a>, AllocError>
        requires { Rises field types.now }
        ensures { IfOk result (λ numbers. numbers ≡ record { types = types.now; void = void }) }
    {
        if types.len() >= u32::MAX as usize {
            return Err(AllocError);
        }
        let place = void_place(types, void);
        Ok(Numbers { types, void, place })
    }

    /// The types of values.
    pub fn types(&self) -> &'a [Erased]
        ensures { result.now ≡ self.now.types }
    {
        self.types
    }

    /// Whether one type has no value.
    pub fn has_void(&self) -> bool
        ensures { result ≡ self.now.void }
    {
        self.void
    }

    /// The number of the type without a value, and how many types there are where there is none.
    pub fn place(&self) -> usize
        ensures value { result ≡ number_in self.now None }
        ensures within { result ≤ length self.now.types }
    {
        self.place
    }

    /// The number of the type that stands at this place among those of values, where one has none.
    pub fn moved(&self, at: u32) -> u32
        requires { at < length self.now.types }
        ensures { result ≡ moved (number_in self.now None) at }
    {
        moved(self.place, at)
    }

    /// The number of a type, and how many there are where it isn't one of them.
    pub fn of(&self, kind: &Erased) -> u32
        ensures { result ≡ number_in self.now (Some kind.now) }
    {
        let at = place_in(self.types, kind) as u32;
        if self.void {
            return moved(self.place, at);
        }
        at
    }

    /// The number of what a member gives, that of `void` where it gives no value.
    pub fn of_outcome(&self, outcome: &Option<Erased>) -> u32
        ensures { result ≡ number_in self.now outcome.now }
    {
        match outcome {
            Some(kind) => self.of(kind),
            None => self.place as u32,
        }
    }
}

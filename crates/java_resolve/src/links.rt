ghost use Rattle.std.specs.Prelude.{◌≡◌, ◌≤◌, ◌&&◌, ◌++◌, ◌∷◌, [], ℕ, List, map, IfOk, chars, codes};
ghost use Rattle.terms.specs.Typing.{rows};
ghost use Rattle.terms.specs.declared.parts.Parts.{Parts};
ghost use Rattle.java_units.specs.Signs.{has};
ghost use Rattle.java_shapes.specs.Shape.{Before, named, called, nothing, fresh, Shapes};
ghost use Rattle.java_shapes.specs.Readable.{IsReadable, IsContext};
ghost use Rattle.java_resolve.specs.Found.{headed_in};
ghost use Rattle.java_resolve.specs.Index.{bucket};
ghost use Rattle.java_resolve.specs.declared.heads.Kind.TheVariants as kind;
ghost use Rattle.java_resolve.specs.Reading.{IsRow, AreSpots, IsSet, IsAloneRow, this_shape};
ghost use Rattle.java_resolve.specs.Naming.{IsBare, IsLink, IsNamed};
ghost use Rattle.java_resolve.specs.Trees.{row_view, place_view};

use crate::chars::first;
use crate::found::{Place, Row};
use crate::heads::{Kind, headed};
use crate::setting::Setting;
use crate::variables::variable_row;
use crate::word::Word;
use lists::Items;
use std::alloc::{AllocError, Global};

/// What stands before a word and its dot: what is found for it, and which fields and methods may follow.
#[derive(Drop)]
pub struct Link {
    pub place: Place,
    pub fields: Kind,
    pub methods: Kind,
}

/// A name up to a place in it: its last word, what stands before that word, and all of its text.
#[derive(Drop)]
pub struct Name {
    pub link: Link,
    pub word: Word,
    pub text: Word,
}

/// What is found for `this`.
fn this_row(alloc: Global, setting: &Setting<'_>) -> Result<Row, AllocError>
    ensures right { (ctx : List (List ℕ)) → IsSet setting.now.env.now setting.now.index.now → IsContext ctx → IfOk result (λ row. IsRow setting.now.env.now ctx this_shape (row_view row)) }
{
    headed(
        alloc,
        setting.env,
        Kind::Alone,
        setting.index.find("this"),
        &[],
    )
}

/// Before a name behind nothing: a bare `this` that is left out.
pub fn left_out(alloc: Global, setting: &Setting<'_>) -> Result<Link, AllocError>
    ensures right { (ctx : List (List ℕ)) → IsSet setting.now.env.now setting.now.index.now → IsContext ctx → IfOk result (λ link. IsLink setting.now.env.now ctx nothing [] [] link) }
{
    let row = this_row(alloc, setting)?;
    Ok(Link {
        place: Place { cast: None, row },
        fields: Kind::ShownField,
        methods: Kind::Method,
    })
}

/// A receiver before a dot.
pub fn receiver(place: Place) -> Link
    ensures place { result.place ≡ place }
    ensures fields { result.fields ≡ kind.Field }
    ensures methods { result.methods ≡ kind.Method }
{
    Link {
        place,
        fields: Kind::Field,
        methods: Kind::Method,
    }
}

/// What is found for the name behind nothing.
fn alone(alloc: Global, setting: &Setting<'_>, text: &str) -> Result<Row, AllocError>
    ensures right { IsReadable setting.now.env.now → IfOk result (λ row. IsAloneRow setting.now.env.now setting.now.index.now (rows setting.now.ctx) text.now (row_view row)) }
{
    let row = headed(
        alloc,
        setting.env,
        Kind::Alone,
        setting.index.find(text),
        &[],
    )?;
    let variable = variable_row(alloc, setting, text)?;
    row.with(variable)
}

/// What is found for fields with this word.
fn fields(alloc: Global, setting: &Setting<'_>, link: &Link, word: &str) -> Result<Row, AllocError>
    ensures value { IfOk result (λ row. row_view row ≡ headed_in setting.now.env.now link.now.fields (bucket setting.now.index.now word.now) (place_view link.now.place ∷ [])) }
{
    let place = std::slice::from_ref(&link.place);
    headed(
        alloc,
        setting.env,
        link.fields,
        setting.index.find(word),
        place,
    )
}

impl Name {
    /// Before the first character.
    pub fn new(alloc: Global, link: Link) -> Name
        ensures link { result.link ≡ link }
        ensures word { result.word ≡ [] }
        ensures text { result.text ≡ [] }
    {
        Name {
            link,
            word: Word::new(alloc),
            text: Word::new(alloc),
        }
    }

    /// What is found for the name, behind nothing or not.
    pub fn row(
        &self,
        alloc: Global,
        setting: &Setting<'_>,
        is_bare: bool,
    ) -> Result<Row, AllocError>
        ensures right { (b : Before) → IsSet setting.now.env.now setting.now.index.now → IsContext (rows setting.now.ctx) → IsBare is_bare b → IsNamed setting.now.env.now (rows setting.now.ctx) b self.now → IfOk result (λ row. IsRow setting.now.env.now (rows setting.now.ctx) (named b self.now.text) (row_view row)) }
    {
        let word = self.word.as_str();
        let text = self.text.as_str();
        let fields = fields(alloc, setting, &self.link, word)?;
        if !is_bare {
            return Ok(fields);
        }
        let row = alone(alloc, setting, text)?;
        row.with(fields)
    }

    /// The name with a dot behind it.
    fn dotted(self, alloc: Global, setting: &Setting<'_>, is_bare: bool) -> Result<Name, AllocError>
        ensures right { (b : Before) → IsSet setting.now.env.now setting.now.index.now → IsContext (rows setting.now.ctx) → IsBare is_bare b → IsNamed setting.now.env.now (rows setting.now.ctx) b self → IfOk result (IsNamed setting.now.env.now (rows setting.now.ctx) b) }
        ensures text { IfOk result (λ name. name.text ≡ self.text ++ 46 ∷ []) }
    {
        let row = self.row(alloc, setting, is_bare)?;
        let Name {
            link: _,
            word: _,
            mut text,
        } = self;
        let link = behind_name(is_bare, &text, row);
        text.push('.')?;
        Ok(Name {
            link,
            word: Word::new(alloc),
            text,
        })
    }

    /// The name with one more character.
    fn with(
        self,
        alloc: Global,
        setting: &Setting<'_>,
        is_bare: bool,
        c: char,
    ) -> Result<Name, AllocError>
        ensures right { (b : Before) → IsSet setting.now.env.now setting.now.index.now → IsContext (rows setting.now.ctx) → IsBare is_bare b → IsNamed setting.now.env.now (rows setting.now.ctx) b self → IfOk result (IsNamed setting.now.env.now (rows setting.now.ctx) b) }
        ensures text { IfOk result (λ name. name.text ≡ self.text ++ c ∷ []) }
    {
        if c == '.' {
            return self.dotted(alloc, setting, is_bare);
        }
        let Name {
            link,
            mut word,
            mut text,
        } = self;
        word.push(c)?;
        text.push(c)?;
        Ok(Name { link, word, text })
    }

    /// The name with all of a text.
    pub fn read(
        self,
        alloc: Global,
        setting: &Setting<'_>,
        is_bare: bool,
        more: &str,
    ) -> Result<Name, AllocError>
        ensures right { (b : Before) → IsSet setting.now.env.now setting.now.index.now → IsContext (rows setting.now.ctx) → IsBare is_bare b → IsNamed setting.now.env.now (rows setting.now.ctx) b self → IfOk result (IsNamed setting.now.env.now (rows setting.now.ctx) b) }
        ensures text { IfOk result (λ name. name.text ≡ self.text ++ chars more.now) }
    {
        let mut name = self;
        let mut rest = more;
        while let Some((c, after)) = first(rest) {
            name = name.with(alloc, setting, is_bare, c)?;
            rest = after;
        }
        Ok(name)
    }
}

/// Whether a name behind nothing is `this`.
fn is_this(is_bare: bool, text: &Word) -> bool
    ensures { result ≡ (is_bare && has (codes "this" ∷ []) text.now) }
{
    if !is_bare {
        return false;
    }
    text.is("this")
}

/// A name before a dot.
fn behind_name(is_bare: bool, text: &Word, row: Row) -> Link
    ensures right { (g : Parts) (ctx : List (List ℕ)) (b : Before) → IsBare is_bare b → IsRow g ctx (named b text.now) (row_view row) → IsLink g ctx b (text.now ++ 46 ∷ []) [] result }
{
    let place = Place { cast: None, row };
    if is_this(is_bare, text) {
        return Link {
            place,
            fields: Kind::HiddenField,
            methods: Kind::Never,
        };
    }
    receiver(place)
}

/// What is found for methods with this word and these arguments behind their receiver.
fn methods(
    alloc: Global,
    setting: &Setting<'_>,
    link: Link,
    word: &str,
    args: Items<Place>,
) -> Result<Row, AllocError>
    ensures value { IfOk result (λ row. row_view row ≡ headed_in setting.now.env.now link.methods (bucket setting.now.index.now word.now) (place_view link.place ∷ map place_view args)) }
{
    let Link {
        place,
        fields: _,
        methods,
    } = link;
    let mut places = Items::new(alloc);
    places.push(place)?;
    places.append(args)?;
    headed(
        alloc,
        setting.env,
        methods,
        setting.index.find(word),
        places.as_slice(),
    )
}

/// What is found for calls with this name and these arguments.
fn calls(
    alloc: Global,
    setting: &Setting<'_>,
    name: &str,
    args: &[Place],
) -> Result<Row, AllocError>
    ensures value { IfOk result (λ row. row_view row ≡ headed_in setting.now.env.now kind.Call (bucket setting.now.index.now name.now) (map place_view args.now)) }
{
    headed(
        alloc,
        setting.env,
        Kind::Call,
        setting.index.find(name),
        args,
    )
}

/// What is found for a call with these arguments.
pub fn call_row(
    alloc: Global,
    setting: &Setting<'_>,
    is_bare: bool,
    name: Name,
    args: Items<Place>,
) -> Result<Row, AllocError>
    ensures right { (ctx : List (List ℕ)) (b : Before) (shapes : Shapes) → IsSet setting.now.env.now setting.now.index.now → IsContext ctx → IsBare is_bare b → IsNamed setting.now.env.now ctx b name → AreSpots setting.now.env.now ctx shapes (map place_view args) → IfOk result (λ row. IsRow setting.now.env.now ctx (called b name.text shapes) (row_view row)) }
{
    let Name { link, word, text } = name;
    let all = text.as_str();
    let last = word.as_str();
    if !is_bare {
        return methods(alloc, setting, link, last, args);
    }
    let calls = calls(alloc, setting, all, args.as_slice())?;
    let methods = methods(alloc, setting, link, last, args)?;
    calls.with(methods)
}

/// What is found for `new` with these arguments.
pub fn new_row(
    alloc: Global,
    setting: &Setting<'_>,
    name: &Word,
    args: &Items<Place>,
) -> Result<Row, AllocError>
    ensures right { (ctx : List (List ℕ)) (shapes : Shapes) → IsSet setting.now.env.now setting.now.index.now → IsContext ctx → AreSpots setting.now.env.now ctx shapes (map place_view args.now) → IfOk result (λ row. IsRow setting.now.env.now ctx (called fresh name.now shapes) (row_view row)) }
{
    headed(
        alloc,
        setting.env,
        Kind::New,
        setting.index.find(name.as_str()),
        args.as_slice(),
    )
}

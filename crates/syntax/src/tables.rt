// Tables of what a problem declares, and what they say of a type, a constructor or a function.
// Of a number that names none they say nothing. No entry is copied, and a count past its array's end is cut to it.
ghost use Rattle.std.specs.Prelude.{◌≡◌, ◌≤◌, ◌<◌, ◌&&◌, length, take, map, ◌==◌, nat_lt};
ghost use Rattle.syntax.specs.Typing.{cases_of, arguments, params_of, result_of, stands};
ghost use Rattle.syntax.specs.Tables.{listed, cases_in, declared_in};

use crate::limits::{MOST_ARGUMENTS, MOST_CONSTRUCTORS};

// At most six types: the arguments of a constructor, or the parameters of a function.
// Kept as it is: an array with a count beside it, here and in `Datatype`: the tables of a check are constants that repeat one
// blank value, which has to be `Copy` and made without a call, as a vector of fixed room (`arrayvec`) is not.
#[derive(Clone, Copy)]
pub struct TypeList {
    pub count: u8,
    pub types: [u8; MOST_ARGUMENTS],
}

// A type by its constructors, each by the types of its arguments; `at` is the place of its record (0 for Bool, which has none).
// Kept as it is: no Option of a place, since no fault is ever found at Bool.
#[derive(Clone, Copy)]
pub struct Datatype {
    pub at: usize,
    pub count: u8,
    pub constructors: [TypeList; MOST_CONSTRUCTORS],
}

// A part of a problem's bytes.
#[derive(Clone, Copy)]
pub struct Span {
    pub start: usize,
    pub len: usize,
}

// A function: the place of its record, what it takes and gives, and where its body stands.
#[derive(Clone, Copy)]
pub struct Callable {
    pub at: usize,
    pub params: TypeList,
    pub result: u8,
    pub body: Span,
}

// What the records declare. Type 0 is Bool, and stands in the table like any other.
#[derive(Clone, Copy)]
pub struct Signature<'a> {
    pub types: &'a [Datatype],
    pub functions: &'a [Callable],
    pub unknowns: &'a [u8],
}

// The first `count` of some items, or all of them where there are fewer.
fn front<T>(items: &[T], count: u8) -> &[T]
    ensures { result.now ≡ take count items.now }
{
    items.get(..usize::from(count)).unwrap_or(items)
}

impl TypeList {
    pub const EMPTY: TypeList = TypeList {
        count: 0,
        types: [0; MOST_ARGUMENTS],
    };

    // The list of these types.
    pub fn new(types: &[u8]) -> TypeList
        requires { length types.now ≤ 6 }
        ensures { listed result ≡ types.now }
    {
        let mut list = [0; MOST_ARGUMENTS];
        list[..types.len()].copy_from_slice(types);
        TypeList {
            count: types.len() as u8,
            types: list,
        }
    }

    // The types of the list.
    pub fn types(&self) -> &[u8]
        ensures is { result.now ≡ listed self.now }
        ensures few { length result.now ≤ 6 }
    {
        front(&self.types, self.count)
    }
}

impl Datatype {
    pub const EMPTY: Datatype = Datatype {
        at: 0,
        count: 0,
        constructors: [TypeList::EMPTY; MOST_CONSTRUCTORS],
    };

    // The constructors of the type, each by the types of its arguments.
    pub fn cases(&self) -> &[TypeList]
        ensures is { map listed result.now ≡ cases_in self.now }
        ensures few { length result.now ≤ 16 }
    {
        front(&self.constructors, self.count)
    }
}

impl Span {
    pub const EMPTY: Span = Span { start: 0, len: 0 };
}

impl Callable {
    pub const EMPTY: Callable = Callable {
        at: 0,
        params: TypeList::EMPTY,
        result: 0,
        body: Span::EMPTY,
    };
}

impl<'a> Signature<'a> {
    // Is t the number of a type?
    pub fn declares(self, t: u8) -> bool
        ensures { result ≡ nat_lt t (length (declared_in self.entry).types) }
    {
        usize::from(t) < self.types.len()
    }

    // The constructors of the type at an index of the table, each by the types of its arguments.
    pub fn cases(self, t: usize) -> &'a [TypeList]
        ensures is { map listed result.now ≡ cases_of (declared_in self.entry) t }
        ensures few { length result.now ≤ 16 }
    {
        self.types.get(t).map_or(&[], |datatype| datatype.cases())
    }

    // How many constructors a type has.
    pub fn case_count(self, t: u8) -> u8
        ensures { result ≡ length (cases_of (declared_in self.entry) t) }
    {
        self.cases(usize::from(t)).len() as u8
    }

    // The argument types of a constructor.
    pub fn arguments(self, t: u8, c: u8) -> &'a [u8]
        ensures is { result.now ≡ arguments (declared_in self.entry) t c }
        ensures few { length result.now ≤ 6 }
    {
        let case = self.cases(usize::from(t)).get(usize::from(c));
        case.map_or(&[], |list| list.types())
    }

    // The parameter types of a function.
    pub fn params(self, f: u8) -> &'a [u8]
        ensures is { result.now ≡ params_of (declared_in self.entry) f }
        ensures few { length result.now ≤ 6 }
    {
        let function = self.functions.get(usize::from(f));
        function.map_or(&[], |function| function.params.types())
    }

    // Is f a function whose result has the type ty?
    pub fn gives(self, f: u8, ty: u8) -> bool
        ensures { result ≡ (nat_lt f (length (declared_in self.entry).functions) && result_of (declared_in self.entry) f == ty) }
    {
        self.functions
            .get(usize::from(f))
            .is_some_and(|function| function.result == ty)
    }

    // Is k an unknown of the type ty?
    pub fn has_unknown(self, k: u8, ty: u8) -> bool
        ensures { result ≡ stands (declared_in self.entry).unknowns k ty }
    {
        self.unknowns
            .get(usize::from(k))
            .is_some_and(|declared| *declared == ty)
    }
}

//! What a file declares for the code of its object.
ghost use Rattle.std.specs.Prelude.{◌≡◌, ◌+◌, ◌<◌, ◌^◌, length};
ghost use Rattle.lc_sexp.specs.Shown.{rest_of};
ghost use Rattle.lc_reading.specs.Words.{names_in};
ghost use Rattle.lc_reading.specs.Listed.{names_among};
ghost use Rattle.lc_reading.specs.TableView.{listed};

use lc_reading::NameTable;
use lc_sexp::Cursor;
use std::rc::Rc;

/// The columns of an array.
#[derive(Clone, Copy)]
pub struct Span {
    /// The place of the first among all columns.
    pub first: u32,
    /// How many there are.
    pub width: u64,
}

/// How an operation is called.
#[derive(Drop)]
pub struct Call<'a> {
    /// The items of its list of arguments.
    pub arguments: Cursor<'a>,
    /// The names of its arguments, which its signature and the bodies of its operation share.
    pub names: Rc<NameTable<'a>>,
    /// How many numbers it returns, if that is said.
    pub replies: Option<u64>,
    ghost named: { listed names.value ≡ names_among (rest_of arguments) },
}

/// The operations that a specification declares.
#[derive(Drop)]
pub struct Operations<'a> {
    pub names: NameTable<'a>,
    /// How they are called, by their numbers.
    pub texts: Vec<&'a str>,
    pub calls: Vec<Call<'a>>,
    ghost same: { names_in texts.items ≡ listed names },
}

/// What a body declares and is given.
#[derive(Drop)]
pub struct Body<'a> {
    /// The name of the expected operation.
    pub operation: &'a str,
    /// The number of its first point.
    pub first: u32,
    /// The items of the list of its operation's arguments.
    pub arguments: Cursor<'a>,
    /// The names of these arguments, which the bodies share that name the operation.
    pub argument_names: Rc<NameTable<'a>>,
    pub replies: Option<u64>,
    pub locals: NameTable<'a>,
    pub labels: NameTable<'a>,
    ghost shared: { listed argument_names.value ≡ names_among (rest_of arguments) },
    ghost few_variables: { 2 + length (names_among (rest_of arguments)) + length (listed locals) < 2 ^ 32 },
    ghost few_points: { first + length (listed labels) < 2 ^ 32 },
}

impl Body<'_> {
    ghost use Rattle.std.specs.Prelude.{◌≡◌, ◌++◌, length};
    ghost use Rattle.lc_sexp.specs.Shown.{rest_of};
    ghost use Rattle.lc_reading.specs.Listed.{names_among, place_of};
    ghost use Rattle.lc_reading.specs.TableView.{listed};

    /// How many arguments its operation has.
    pub fn argument_count(&self) -> u32
        ensures { result ≡ length (names_among (rest_of self.now.arguments)) }
    {
        self.argument_names.len() as u32
    }

    /// The place at which a name occurs first among the arguments, and then the locals.
    pub fn variable(&self, name: &str) -> Option<usize>
        ensures { result ≡ place_of (names_among (rest_of self.now.arguments) ++ listed self.now.locals) name.now }
    {
        if let Some(place) = self.argument_names.place(name) {
            return Some(place);
        }
        let place = self.locals.place(name)?;
        Some(self.argument_names.len() + place)
    }
}

/// The names that a development file declares.
#[derive(Drop)]
pub struct Declared<'a> {
    /// Abstract, then concrete, then auxiliary.
    pub columns: NameTable<'a>,
    /// How many columns are abstract.
    pub abstracts: u32,
    /// The place of the first column that is auxiliary.
    pub auxiliaries: u32,
    pub arrays: NameTable<'a>,
    pub spans: Vec<Span>,
    pub operations: NameTable<'a>,
    pub calls: Vec<Call<'a>>,
    pub points: NameTable<'a>,
    pub bodies: Vec<Body<'a>>,
    ghost few_arrays: { length spans.items < 2 ^ 32 },
}

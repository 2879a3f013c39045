// The format's limits that more than one crate goes by. Clauses say them as numbers.

// The bytes of a problem.
pub const MOST_BYTES: usize = 16384;

// The types of a problem, Bool among them.
pub const MOST_TYPES: usize = 32;

// Its functions.
pub const MOST_FUNCTIONS: usize = 64;

// Its unknowns.
pub const MOST_UNKNOWNS: usize = 16;

// Its goals.
pub const MOST_GOALS: usize = 32;

// The constructors of a type.
pub const MOST_CONSTRUCTORS: usize = 16;

// The types in a list of arguments or parameters.
pub const MOST_ARGUMENTS: usize = 6;

// The variables in scope of a term.
pub const MOST_VARIABLES: usize = 64;

// Stands for the least depth of a type without a value no deeper than 8.
pub const NO_VALUE: u8 = 9;

// Looks for type numbers outside terms that name no type.
#![tactic(auto)]

ghost use Rattle.std.specs.Prelude.{◌≡◌, ◌+◌, ◌*◌, ◌^◌, ◌<◌, ◌≤◌, map, length, position, nat_le};
ghost use Rattle.std.specs.List.{All};
ghost use Rattle.syntax.specs.Tables.{listed};
ghost use Rattle.declarations.specs.Numbers.{in_list, in_cases, in_profile, in_unknowns, first_from, of_types, of_functions, of_tables, Low};
ghost use Rattle.declarations.specs.Laws.{UndeclaredIsExact};

use syntax::tables::{Callable, Datatype, Signature, TypeList};

// The index of the first of the types that is not below `known`.
fn first_past(types: &[u8], known: usize) -> Option<usize>
    ensures { result ≡ position (nat_le known) types.now }
{
    types.iter().position(|t| usize::from(*t) >= known)
}

// The place of the first of the types that is not below `known`; the first type stands at `place`.
fn in_list(types: &[u8], known: usize, place: usize) -> Option<usize>
    requires { place + length types.now < 2 ^ 32 }
    ensures { result ≡ first_from known (in_list place types.now) }
{
    first_past(types, known).map(|i| place + i)
}

// The first in the constructors; the count of the first one's arguments stands at `place`.
fn in_cases(cases: &[TypeList], known: usize, place: usize) -> Option<usize>
    requires { (place ≤ 20000) × (length cases.now ≤ 16) }
    ensures { result ≡ first_from known (in_cases place (map listed cases.now)) }
{
    let mut at = place;
    for list in cases {
        let types = list.types();
        if let Some(found) = in_list(types, known, at + 1) {
            return Some(found);
        }
        at += 1 + types.len();
    }
    None
}

fn in_types(types: &[Datatype], known: usize) -> Option<usize>
    requires { All (λ d. d.at ≤ 16384) types.now }
    ensures { result ≡ first_from known (of_types types.now) }
{
    types.iter().find_map(|datatype| in_cases(datatype.cases(), known, datatype.at + 3))
}

// The first in a function's parameters and result.
fn in_callable(function: &Callable, known: usize) -> Option<usize>
    requires { function.now.at ≤ 16384 }
    ensures { result ≡ first_from known (in_profile function.now.at (listed function.now.params) function.now.result) }
{
    let types = function.params.types();
    let place = function.at + 3;
    in_list(types, known, place).or_else(|| in_list(&[function.result], known, place + types.len()))
}

fn in_functions(functions: &[Callable], known: usize) -> Option<usize>
    requires { All (λ f. f.at ≤ 16384) functions.now }
    ensures { result ≡ first_from known (of_functions functions.now) }
{
    functions
        .iter()
        .find_map(|function| in_callable(function, known))
}

fn in_unknowns(unknowns: &[u8], known: usize, start: usize) -> Option<usize>
    requires { (start ≤ 16384) × (length unknowns.now ≤ 16) }
    ensures { result ≡ first_from known (in_unknowns start unknowns.now) }
{
    first_past(unknowns, known).map(|k| start + 3 * k + 2)
}

// The place of the first type number outside terms that names no type. The unknown records start at `start`.
pub fn undeclared(sig: Signature, start: usize) -> Option<usize>
    requires { Low sig start }
    ensures { result ≡ first_from (length sig.entry.types.now) (of_tables sig.entry start) }
{
    let known = sig.types.len();
    in_types(sig.types, known)
        .or_else(|| in_functions(sig.functions, known))
        .or_else(|| in_unknowns(sig.unknowns, known, start))
}

// No place is named exactly if every type number outside terms names a type.
pub fn undeclared_is_exact() -> u8
    ensures { UndeclaredIsExact }
{
    0
}

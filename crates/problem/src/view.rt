// What stands at a place of a problem's bytes.
ghost use Rattle.std.specs.Prelude.{Some};
ghost use Rattle.problem.specs.Shown.{view_text};

use std::fmt;

// The head of a term: which kind it is, and where its parts stand. The arguments of a constructor or a call, and the branches
// of a case, stand one after another; the branches come after the subject.
#[derive(Clone, Copy)]
pub enum View {
    Variable(u8),
    Unknown(u8),
    Constructor {
        ty: u8,
        constructor: u8,
        arity: u8,
        arguments: usize,
    },
    Call {
        function: u8,
        arity: u8,
        arguments: usize,
    },
    Case {
        ty: u8,
        subject: usize,
    },
    And {
        left: usize,
        right: usize,
    },
    Not(usize),
    Equal {
        left: usize,
        right: usize,
    },
    // Kept as it is: a case and no Option of a view, which each reader would have to match twice.
    Nothing,
}

impl fmt::Display for View {
    ghost output = { λ v. Some (view_text v) };

    fn fmt<W: fmt::Write>(&self, f: &mut fmt::Formatter<W>) -> fmt::Result {
        match self {
            View::Variable(v) => write!(f, "variable {v}"),
            View::Unknown(k) => write!(f, "unknown {k}"),
            View::Constructor {
                ty,
                constructor,
                arity,
                arguments,
            } => write!(
                f,
                "constructor {constructor} of type {ty}, {arity} from {arguments}"
            ),
            View::Call {
                function,
                arity,
                arguments,
            } => write!(f, "call of {function}, {arity} from {arguments}"),
            View::Case { ty, subject } => write!(f, "case of type {ty}, subject {subject}"),
            View::And { left, right } => write!(f, "and of {left} and {right}"),
            View::Not(inner) => write!(f, "not of {inner}"),
            View::Equal { left, right } => write!(f, "equal of {left} and {right}"),
            View::Nothing => f.write_str("nothing"),
        }
    }
}

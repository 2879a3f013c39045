// What one byte of the text does.
ghost use Rattle.std.specs.Prelude.{◌≡◌, ◌-◌, ◌≤◌};
ghost use Rattle.dimacs.specs.Step.{blank, still, to_mode, to_number, mode_behind, begun, line_begun, gapped, item, ended, numbered, expected, stepped};

use crate::fault::Kind;

// Where in a line the reader is.
#[derive(Clone, Copy)]
pub(crate) enum Mode {
    // At its start, or behind blanks there.
    Start,
    Comment,
    // Behind a line that begins with %: nothing more is read.
    Ended,
    // In the header: behind the p, behind blanks there, and behind each letter of cnf.
    P,
    Blank,
    C,
    Cn,
    Cnf,
    // Between numbers.
    Gap,
    // Behind a minus.
    Sign,
    // Behind a digit, with the number so far.
    Digits(Number),
}

// A number that is being read.
#[derive(Clone, Copy)]
pub(crate) struct Number {
    pub(crate) negative: bool,
    // Exact up to a million.
    pub(crate) value: u32,
}

#[derive(Clone, Copy)]
pub(crate) struct Header {
    pub(crate) variables: u32,
    pub(crate) clauses: u32,
}

// How far the header was read.
#[derive(Clone, Copy)]
pub(crate) enum Stage {
    Before,
    Variables,
    Clauses { variables: u32 },
    // The rest of the header's line.
    Rest(Header),
    // Behind the header, with how many clauses were ended.
    Body { header: Header, read: u32 },
}

#[derive(Clone, Copy)]
pub(crate) struct State {
    pub(crate) mode: Mode,
    pub(crate) stage: Stage,
}

// What a byte brings to its end.
#[derive(Clone, Copy)]
pub(crate) enum Event {
    Literal(u16),
    Clause,
}

#[derive(Clone, Copy)]
pub(crate) struct Step {
    pub(crate) state: State,
    pub(crate) event: Option<Event>,
}

// The literals of more variables do not fit in 16 bits.
pub(crate) const MOST_VARIABLES: u32 = 32768;

fn is_blank(b: u8) -> bool
    ensures { result ≡ blank b }
{
    matches!(b, b' ' | b'\t' | b'\r')
}

// Nothing is at its end.
fn quiet(state: State) -> Result<Step, Kind>
    ensures { result ≡ still state }
{
    Ok(Step { state, event: None })
}

fn enter(s: State, mode: Mode) -> Result<Step, Kind>
    ensures { result ≡ still (to_mode s mode) }
{
    quiet(State { mode, ..s })
}

// The first digit of a number.
fn first(s: State, negative: bool, digit: u8) -> Result<Step, Kind>
    requires { 48 ≤ digit }
    ensures { result ≡ still (to_number s negative (digit - 48)) }
{
    enter(
        s,
        Mode::Digits(Number {
            negative,
            value: (digit - b'0') as u32,
        }),
    )
}

// The mode behind a number: a newline ends the line too.
fn behind(newline: bool) -> Mode
    ensures { result ≡ mode_behind newline }
{
    if newline { Mode::Start } else { Mode::Gap }
}

// A number begins, with a digit or, behind the header, with a minus.
fn begin(s: State, b: u8) -> Result<Step, Kind>
    ensures { result ≡ begun s b }
{
    if b.is_ascii_digit() {
        return first(s, false, b);
    }
    match s.stage {
        Stage::Body { .. } => if b == b'-' {
            enter(s, Mode::Sign)
        } else {
            Err(Kind::Garbage)
        },
        _ => Err(Kind::BadHeader),
    }
}

// A byte at the start of a line.
fn begin_line(s: State, b: u8) -> Result<Step, Kind>
    ensures { result ≡ line_begun s b }
{
    if is_blank(b) | (b == b'\n') {
        return quiet(s);
    }
    if b == b'c' {
        return enter(s, Mode::Comment);
    }
    match s.stage {
        Stage::Body { .. } => if b == b'%' {
            enter(s, Mode::Ended)
        } else {
            begin(s, b)
        },
        _ => if b == b'p' {
            enter(s, Mode::P)
        } else {
            Err(Kind::NoHeader)
        },
    }
}

// A byte between numbers.
fn gap(s: State, b: u8) -> Result<Step, Kind>
    ensures { result ≡ gapped s b }
{
    if is_blank(b) {
        return quiet(s);
    }
    match s.stage {
        Stage::Body { .. } => if b == b'\n' {
            enter(s, Mode::Start)
        } else {
            begin(s, b)
        },
        Stage::Rest(header) => if b == b'\n' {
            quiet(State {
                mode: Mode::Start,
                stage: Stage::Body { header, read: 0 },
            })
        } else {
            Err(Kind::BadHeader)
        },
        _ => begin(s, b),
    }
}

// A number of a clause is ended, behind so many clauses.
fn end_item(header: Header, read: u32, n: Number, newline: bool) -> Result<Step, Kind>
    ensures { result ≡ item header read n newline }
{
    if n.value > header.variables.min(MOST_VARIABLES) {
        return Err(Kind::OutOfRange);
    }
    if n.value > 0 {
        let l = 2 * (n.value - 1) as u16;
        let l = if n.negative { l + 1 } else { l };
        return Ok(Step {
            state: State {
                mode: behind(newline),
                stage: Stage::Body { header, read },
            },
            event: Some(Event::Literal(l)),
        });
    }
    if n.negative {
        return Err(Kind::Garbage);
    }
    if read >= header.clauses {
        return Err(Kind::TooManyClauses);
    }
    Ok(Step {
        state: State {
            mode: behind(newline),
            stage: Stage::Body {
                header,
                read: read + 1,
            },
        },
        event: Some(Event::Clause),
    })
}

// A number is ended.
fn end_number(stage: Stage, n: Number, newline: bool) -> Result<Step, Kind>
    ensures { result ≡ ended stage n newline }
{
    match stage {
        Stage::Body { header, read } => end_item(header, read, n, newline),
        Stage::Variables => {
            if newline {
                return Err(Kind::BadHeader);
            }
            if n.value > MOST_VARIABLES {
                return Err(Kind::TooManyVariables);
            }
            quiet(State {
                mode: Mode::Gap,
                stage: Stage::Clauses { variables: n.value },
            })
        }
        Stage::Clauses { variables } => {
            let header = Header {
                variables,
                clauses: n.value,
            };
            let stage = if newline {
                Stage::Body { header, read: 0 }
            } else {
                Stage::Rest(header)
            };
            quiet(State {
                mode: behind(newline),
                stage,
            })
        }
        _ => Err(Kind::BadHeader),
    }
}

// A byte behind a digit.
fn go_on(s: State, n: Number, b: u8) -> Result<Step, Kind>
    ensures { result ≡ numbered s n b }
{
    if b.is_ascii_digit() {
        let value = n.value.min(100000) * 10 + (b - b'0') as u32;
        return enter(s, Mode::Digits(Number { value, ..n }));
    }
    if is_blank(b) {
        return end_number(s.stage, n, false);
    }
    if b == b'\n' {
        return end_number(s.stage, n, true);
    }
    Err(Kind::Garbage)
}

// A byte of the header, of which some are wanted.
fn expect(s: State, wanted: bool, mode: Mode) -> Result<Step, Kind>
    ensures { result ≡ expected s wanted mode }
{
    if wanted {
        enter(s, mode)
    } else {
        Err(Kind::BadHeader)
    }
}

// Kept as it is: the mode says what a byte means, so that the reader is a machine of one byte after another, and the theorem about
// spelled texts goes along it byte for byte.
pub(crate) fn advance(s: State, b: u8) -> Result<Step, Kind>
    ensures { result ≡ stepped s b }
{
    match s.mode {
        Mode::Start => begin_line(s, b),
        Mode::Comment => if b == b'\n' {
            enter(s, Mode::Start)
        } else {
            quiet(s)
        },
        Mode::Ended => quiet(s),
        Mode::P => expect(s, is_blank(b), Mode::Blank),
        Mode::Blank => if is_blank(b) {
            quiet(s)
        } else {
            expect(s, b == b'c', Mode::C)
        },
        Mode::C => expect(s, b == b'n', Mode::Cn),
        Mode::Cn => expect(s, b == b'f', Mode::Cnf),
        Mode::Cnf => expect(
            State {
                stage: Stage::Variables,
                ..s
            },
            is_blank(b),
            Mode::Gap,
        ),
        Mode::Gap => gap(s, b),
        Mode::Sign => {
            if b.is_ascii_digit() {
                first(s, true, b)
            } else {
                Err(Kind::Garbage)
            }
        }
        Mode::Digits(n) => go_on(s, n, b),
    }
}

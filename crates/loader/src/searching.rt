// Searching a problem with all its goals in force.
ghost use Rattle.std.specs.Prelude.{◌≤◌, length};
ghost use Rattle.problem.specs.Meant.{meant};
ghost use Rattle.chooser.specs.Made.{Fresh};
ghost use Rattle.loader.specs.Requests.{Admits};
ghost use Rattle.loader.specs.Searching.{SoughtBy, Answered};
ghost use Rattle.rows.specs.declared.store.TheConstants.{MOST_VARIABLES};

use crate::request::{Request, Room, admit};
use crate::under_goals::Seeker;
use boundary::answering::DepthAnswer;
use boundary::faults::LoadFault;
use chooser::Chooser;
use held::places::Place;
use judge::left::STEP_PLACES;
use learning::Learning;
use plain::Plain;
use problem::problem::Problem;
use problem::take::take;
use rounds::search::Lent;
use sessions::session::Session;
use std::alloc::Global;

// What a search has written: the answers of so many depths, and so many bytes of a model, none where none was found.
#[repr(C)]
#[derive(Clone, Copy, PartialEq, Eq, Debug)]
pub struct Found {
    pub answers: usize,
    pub model: usize,
}

// Searches a problem with a new chooser. The judge's places are allocated, and the session begun.
fn search_with<C: Chooser>(
    heap: Global,
    problem: &Problem,
    chooser: &mut C,
    request: &Request,
    way: &mut [u8],
    literals: &mut [u16],
    answers: &mut [DepthAnswer],
    model: &mut [u8],
) -> Result<Found, LoadFault>
    requires fresh { Fresh (C.Chooser.meaning chooser.old) C.Chooser.MAX_VARIABLES request.now.entries }
    requires most { 32 ≤ C.Chooser.MAX_VARIABLES }
    requires way { C.Chooser.MAX_VARIABLES ≤ length way.old }
    requires literals { C.Chooser.MAX_VARIABLES ≤ length literals.old }
    requires admits { Admits request.now (length answers.old) }
    requires model { 1584 ≤ length model.old }
    ensures { SoughtBy C.Chooser.MAX_VARIABLES (meant problem.now) request.now answers.old answers.new model.old model.new result }
{
    let mut places = vec![in heap; Place::BLANK; STEP_PLACES * request.steps]?;
    let mut lent = Lent {
        places: &mut places,
        literals,
    };
    let mut session = Session::new();
    let Ok(()) = session.begin(problem, chooser) else {
        unreachable!();
    };
    let seeker = Seeker {
        problem,
        request: *request,
    };
    Ok(seeker.search_under(&mut session, chooser, way, &mut lent, answers, model, 0))
}

// Searches with the plain chooser. The first fault is answered of the bytes, of the request, of what is lent, and then want of memory.
pub fn search_plain(
    heap: Global,
    bytes: &[u8],
    request: &Request,
    way: &mut [u8],
    literals: &mut [u16],
    answers: &mut [DepthAnswer],
    model: &mut [u8],
) -> Result<Found, LoadFault>
    ensures { Answered MOST_VARIABLES bytes.now request.now (record { way = length way.old; literals = length literals.old; answers = length answers.old; model = length model.old }) answers.old answers.new model.old model.new result }
{
    let room = Room {
        way: way.len(),
        literals: literals.len(),
        answers: answers.len(),
        model: model.len(),
    };
    admit(bytes, request, usize::from(Plain::MAX_VARIABLES), room)?;
    let problem = take(heap, bytes)?;
    let mut chooser = Plain::new(heap, usize::from(request.entries))?;
    search_with(
        heap,
        &problem,
        &mut chooser,
        request,
        way,
        literals,
        answers,
        model,
    )
}

// Searches with the learning chooser, and else as `search_plain` does.
pub fn search_learning(
    heap: Global,
    bytes: &[u8],
    request: &Request,
    way: &mut [u8],
    literals: &mut [u16],
    answers: &mut [DepthAnswer],
    model: &mut [u8],
) -> Result<Found, LoadFault>
    ensures { Answered MOST_VARIABLES bytes.now request.now (record { way = length way.old; literals = length literals.old; answers = length answers.old; model = length model.old }) answers.old answers.new model.old model.new result }
{
    let room = Room {
        way: way.len(),
        literals: literals.len(),
        answers: answers.len(),
        model: model.len(),
    };
    admit(bytes, request, usize::from(Learning::MAX_VARIABLES), room)?;
    let problem = take(heap, bytes)?;
    let mut chooser = Learning::new(heap, usize::from(request.entries))?;
    search_with(
        heap,
        &problem,
        &mut chooser,
        request,
        way,
        literals,
        answers,
        model,
    )
}

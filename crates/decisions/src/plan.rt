// How far a search has come.
// Kept as it is: the assumptions are passed on beside the plan. Each function that changes a plan which holds them would have to
// promise besides that they stay.
#[derive(Clone, Copy, PartialEq, Eq, Debug)]
pub struct Plan {
    // The assumptions before `next` are on the trail, before the place `firm`. Other decisions stand behind `firm`, once every
    // assumption is on the trail.
    pub next: usize,
    pub firm: usize,
    // The literals from the place `queue` on are still to be propagated; those before `fixed` are marked known, at level 0.
    pub queue: usize,
    pub fixed: usize,
}

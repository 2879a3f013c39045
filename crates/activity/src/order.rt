ghost use Rattle.std.specs.Prelude.{◌≡◌, ℕ, ◌+◌, ◌/◌, ◌%◌, ◌==◌, ◌<◌, ◌≤◌, [], length, replicate, set, vec_len, vec_capacity, All, IfOk, IfSome};
ghost use Rattle.rows.specs.declared.store.TheConstants.{MOST_VARIABLES};
ghost use Rattle.trail.specs.Values.{Free};

use rows::{MOST_VARIABLES, is_positive, literal, variable};
use std::alloc::{AllocError, Global};
use trail::{Trail, Value};

// How far an activity may grow before all are divided by 2 ^ 40.
const HIGH: u64 = 1 << 60;

const SCALE: u64 = 1 << 40;

#[derive(Clone, Copy)]
struct Variable {
    activity: u64,
    // Where it stands in the heap, if it does.
    place: Option<u16>,
    // The value that it last had.
    phase: bool,
}

// A variable that took part in no clash, and that no trail had.
const FRESH: Variable = Variable {
    activity: 0,
    place: None,
    phase: false,
};

// Keeps the values that are known.
fn keep_phases(variables: &mut [Variable], values: &[Value]) {
    for (variable, value) in variables.iter_mut().zip(values) {
        match value {
            Value::True => variable.phase = true,
            Value::False => variable.phase = false,
            Value::Open => {}
        }
    }
}

// The variables by activity, and the value that each last had. The memory is reserved once.
#[derive(Drop)]
pub struct Order {
    // A heap: no variable is more active than the one at half its place.
    heap: Vec<u16>,
    variables: Vec<Variable>,
    // What the next clash adds to an activity.
    step: u64,
    ghost every: { length variables.items ≡ MOST_VARIABLES },
    ghost named: { All (λ v. v < MOST_VARIABLES) heap.items },
    ghost room: { vec_capacity heap ≡ MOST_VARIABLES },
}

impl Order {
    ghost use Rattle.activity.specs.Phases.{phases};

    // Makes an order of which no variable is in the heap.
    pub fn new(heap: Global) -> Result<Order, AllocError>
        ensures heap { IfOk result (λ o. o.heap.items ≡ []) }
        ensures variables { IfOk result (λ o. o.variables.items ≡ replicate MOST_VARIABLES FRESH) }
    {
        Ok(Order {
            heap: Vec::with_capacity(heap, MOST_VARIABLES)?,
            variables: vec![in heap; FRESH; MOST_VARIABLES]?,
            step: 65536,
        })
    }

    fn activity(&self, v: u16) -> u64
        requires { v < MOST_VARIABLES }
    {
        self.variables[v as usize].activity
    }

    // Puts the variable at the place `i` of the heap.
    fn seat(&mut self, i: usize, v: u16)
        requires within { i < length self.old.heap.items }
        requires named { v < MOST_VARIABLES }
        ensures length { length self.new.heap.items ≡ length self.old.heap.items }
        ensures phases { phases self.new ≡ phases self.old }
    {
        self.heap[i] = v;
        self.variables[v as usize].place = Some(i as u16);
    }

    // Moves the variable of a place up, past the less active ones.
    // Kept as it is: the loops here and in `sift_down` halve and double a place, which no iterator over the heap does.
    fn sift_up(&mut self, place: usize)
        requires { place < length self.old.heap.items }
        ensures length { length self.new.heap.items ≡ length self.old.heap.items }
        ensures phases { phases self.new ≡ phases self.old }
    {
        let mut i = place;
        let v = self.heap[i];
        let a = self.activity(v);
        while i > 0 {
            let parent = (i - 1) / 2;
            let u = self.heap[parent];
            if self.activity(u) >= a {
                break;
            }
            self.seat(i, u);
            i = parent;
        }
        self.seat(i, v);
    }

    // Returns the more active one of the two places behind `i`, if the heap has it.
    fn child(&self, i: usize) -> Option<usize>
        requires { i < length self.now.heap.items }
        ensures { IfSome result (λ c. (i < c) × (c < length self.now.heap.items)) }
    {
        let c = 2 * i + 1;
        if c >= self.heap.len() {
            return None;
        }
        let d = c + 1;
        let second = d < self.heap.len()
            && self.activity(self.heap[d]) > self.activity(self.heap[c]);
        Some(if second { d } else { c })
    }

    // Moves the variable of the heap's top down, past the more active ones.
    fn sift_down(&mut self)
        requires { 0 < length self.old.heap.items }
        ensures { length self.new.heap.items ≡ length self.old.heap.items }
    {
        let v = self.heap[0];
        let a = self.activity(v);
        let mut i = 0;
        while let Some(c) = self.child(i) {
            let u = self.heap[c];
            if a >= self.activity(u) {
                break;
            }
            self.seat(i, u);
            i = c;
        }
        self.seat(i, v);
    }

    // Puts the variable into the heap, if it is not there.
    pub fn insert(&mut self, v: u16)
        ensures { phases self.new ≡ phases self.old }
    {
        let i = self.heap.len();
        if i < MOST_VARIABLES
            && (v as usize) < MOST_VARIABLES
            && self.variables[v as usize].place.is_none()
        {
            self.heap.push_reserved(v);
            self.sift_up(i);
        }
    }

    // Takes the most active variable out of the heap.
    fn take_top(&mut self) -> Option<u16>
        ensures shorter { IfSome result (λ v. length self.new.heap.items < length self.old.heap.items) }
        ensures named { IfSome result (λ v. v < MOST_VARIABLES) }
    {
        let last = self.heap.pop()?;
        if self.heap.is_empty() {
            self.variables[last as usize].place = None;
            return Some(last);
        }
        let top = self.heap[0];
        self.variables[top as usize].place = None;
        self.heap[0] = last;
        self.sift_down();
        Some(top)
    }

    // Returns a literal to decide, of an open variable, if the heap has one.
    pub fn pick(&mut self, trail: &Trail) -> Option<u16>
        ensures { IfSome result (λ l. Free trail.now.values l) }
    {
        while let Some(v) = self.take_top() {
            let l = literal(v, self.variables[v as usize].phase);
            if trail.is_open(l) {
                return Some(l);
            }
        }
        None
    }

    // Keeps the value that makes the literal true, and puts its variable into the heap.
    pub(crate) fn release(&mut self, l: u16)
        ensures { phases self.new ≡ set (phases self.old) (l / 2) (l % 2 == 0) }
    {
        let v = l / 2;
        if (v as usize) < MOST_VARIABLES {
            self.variables[v as usize].phase = is_positive(l);
            self.insert(v);
        }
    }

    // Keeps the values of the trail's variables, of which the first `n` are allotted, and puts these into the heap.
    pub fn refill(&mut self, trail: &Trail, n: usize) {
        let allotted = n.min(MOST_VARIABLES);
        keep_phases(&mut self.variables, &trail.values[..allotted]);
        for v in 0..allotted {
            self.insert(v as u16);
        }
    }

    // Divides all activities.
    fn rescale(&mut self) {
        for variable in self.variables.iter_mut() {
            variable.activity /= SCALE;
        }
        self.step = self.step / SCALE + 1;
    }

    fn bump(&mut self, v: usize)
        requires { v < MOST_VARIABLES }
    {
        let variable = &mut self.variables[v];
        variable.activity = variable.activity.wrapping_add(self.step);
        let high = variable.activity > HIGH;
        if let Some(place) = variable.place {
            if (place as usize) < self.heap.len() {
                self.sift_up(place as usize);
            }
        }
        if high {
            self.rescale();
        }
    }

    // More activity for the variables of the trail that were seen. None of them is seen then.
    pub fn reward(&mut self, trail: &Trail, seen: &mut [bool]) {
        for step in &trail.steps {
            let v = variable(step.literal);
            if v < MOST_VARIABLES && v < seen.len() && seen[v] {
                seen[v] = false;
                self.bump(v);
            }
        }
        self.step = self.step.wrapping_add(self.step / 20);
    }
}

// The working memory: environments and rows of arguments in the places that are lent.
ghost use Rattle.std.specs.Prelude.{◌≡◌, ℕ, ◌+◌, ◌-◌, ◌<◌, ◌≤◌, length, slice_set, slice_index_or, Some};
ghost use Rattle.judging.specs.Held.{Held as Spec, Helds, h[], ◌h∷◌, bound, frees, ◌h++◌};
ghost use Rattle.held.specs.Reading.{Text, Reads};
ghost use Rattle.held.specs.Standing.{no_place, place_at, down, hlength, Stands, Env, Row};
ghost use Rattle.held.specs.Growing.{Grown};

use crate::links::Link;
use crate::places::{Held, Place};

// Places, of which those below `top` are in use.
// Kept as it is: a number beside the places, since they are memory that the caller lends.
#[derive(Drop)]
pub struct Memory<'a> {
    pub places: &'a mut [Place],
    pub top: usize,
}

impl<'a> Memory<'a> {
    // Memory of which no place is in use.
    pub fn new(places: &'a mut [Place]) -> Memory<'a>
        ensures places { result.places.now ≡ places.old }
        ensures top { result.top ≡ 0 }
    {
        Memory { places, top: 0 }
    }

    // The place that a link goes to; where there is none, a blank one.
    pub fn linked(&self, link: Link) -> Place
        ensures { result ≡ place_at self.now.places.now link }
    {
        link.index()
            .and_then(|index| self.places.get(index))
            .copied()
            .unwrap_or(Place::BLANK)
    }

    // The argument that stands at a place; where there is no such place, none that a typed term comes to.
    pub fn argument(&self, place: usize) -> Held
        ensures { result ≡ (slice_index_or self.now.places.now place no_place).held }
    {
        self.places
            .get(place)
            .map_or(Held::Missing, |found| found.held)
    }

    // What is held after so many links down.
    fn walk(&self, env: Link, count: usize) -> Held
        ensures { result ≡ (place_at self.now.places.now (down self.now.places.now env count)).held }
    {
        let mut link = env;
        for _ in 0..count {
            link = self.linked(link).next;
        }
        self.linked(link).held
    }

    // What a variable is bound to. Variables count from the oldest binding, and links go from the newest.
    pub fn lookup(&self, env: Link, variable: u8) -> Held
        ensures { (x : Text) (top : ℕ) (ρ : Helds ℕ) → Env (Reads x) self.now.places.now top env ρ → Stands (Reads x) self.now.places.now top result (bound ρ variable) }
    {
        let size = self.linked(env).size;
        let variable = usize::from(variable);
        if variable < size {
            self.walk(env, size - 1 - variable)
        } else {
            Held::Missing
        }
    }

    // Takes the next place into use.
    fn put(&mut self, place: Place)
        requires { self.old.top < length self.old.places.now }
        ensures places { self.new.places.now ≡ slice_set self.old.places.now self.old.top place }
        ensures top { self.new.top ≡ self.old.top + 1 }
    {
        self.places[self.top] = place;
        self.top += 1;
    }

    // Binds what is held to the next variable of an environment, in the next place, and gives the environment that comes of it.
    pub fn push(&mut self, held: Held, env: Link) -> Link
        requires { self.old.top < length self.old.places.now }
        ensures grown { Grown 1 self.old self.new }
        ensures top { self.new.top ≡ self.old.top + 1 }
        ensures held { (slice_index_or self.new.places.now self.old.top no_place).held ≡ held }
        ensures bound { (x : Text) (ρ : Helds ℕ) (h : Spec ℕ) → Env (Reads x) self.old.places.now self.old.top env ρ → Stands (Reads x) self.old.places.now self.old.top held h → Env (Reads x) self.new.places.now self.new.top result (ρ h++ (h h∷ h[])) }
    {
        let link = self.top;
        let size = self.linked(env).size.min(link) + 1;
        self.put(Place {
            held,
            next: env,
            size,
        });
        Link::to(link)
    }

    // Binds the arguments in a row to the next variables of an environment.
    pub fn bind(&mut self, start: usize, count: u8, env: Link) -> Link
        requires { self.old.top + count ≤ length self.old.places.now }
        ensures grown { Grown count self.old self.new }
        ensures bound { (x : Text) (xs ρ : Helds ℕ) → count ≡ hlength xs → Row (Reads x) self.old.places.now self.old.top start xs → Env (Reads x) self.old.places.now self.old.top env ρ → Env (Reads x) self.new.places.now self.new.top result (ρ h++ xs) }
    {
        let end = start
            .saturating_add(usize::from(count))
            .min(self.places.len());
        let mut bound = env;
        // Kept as it is: the row stands in the places that grow meanwhile, so that it is read by index and not by an iterator.
        for argument in start..end {
            let held = self.places[argument].held;
            bound = self.push(held, bound);
        }
        bound
    }

    // Writes unknowns as a row of arguments.
    pub fn hold_unknowns(&mut self, unknowns: &[u16])
        requires { self.old.top + length unknowns.now ≤ length self.old.places.now }
        ensures grown { Grown (length unknowns.now) self.old self.new }
        ensures row { (x : Text) → Row (Reads x) self.new.places.now self.new.top self.old.top (frees unknowns.now) }
    {
        for unknown in unknowns {
            self.put(Place {
                held: Held::Unknown(*unknown),
                ..Place::BLANK
            });
        }
    }
}

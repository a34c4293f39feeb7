// Places, each of which holds one of something by its id, or none: what curves, sections and ET records have in common.
// A place is a value with a flag, as the state has it in arrays of fixed size, and the figures of a free place are fixed.
//
// No public function has a `requires`: each is defined at every value of its parameters.
#![tactic(auto)]

ghost use Rattle.std.specs.Prelude.{◌≡◌, ℕ, Bool, false, map};
ghost use Rattle.rules.specs.Places.{any_of, all_of, placed};
ghost use Rattle.holding.specs.Holding.{is_at, replaced_at, given, ended_at};

mod held;

// A place for one thing, known by its id.
pub trait Place: Copy {
    // A place that holds none.
    ghost free: { Self };

    // Whether this place holds one, and the id of the one that it holds.
    ghost held: { Self → Bool };

    ghost id: { Self → ℕ };

    // What the place holds after a new one of its id, and after the end of its id.
    ghost replaced: { Self → Self → Self };

    ghost ended: { Self → Self };

    fn free() -> Self
        ensures { result ≡ free };

    fn is_held(self) -> bool
        ensures { result ≡ held self };

    fn id(self) -> u8
        ensures { result ≡ id self };

    fn replaced_by(self, new: Self) -> Self
        ensures { result ≡ replaced new self };

    fn ended(self) -> Self
        ensures { result ≡ ended self };

    // A free place holds none, and a new one in the place of its id is held by that id.
    ghost free_holds_none: { held free ≡ false };

    ghost new_is_held: { (new old : Self) → (held (replaced new old) ≡ held new) × (id (replaced new old) ≡ id new) };
}

// Whether this place holds the id.
pub fn is_at<T: Place>(id: u8, place: T) -> bool
    ensures { result ≡ is_at T.held T.id id place }
{
    place.is_held() & (place.id() == id)
}

// Whether a place holds the id.
pub fn holds<T: Place>(id: u8, places: &[T]) -> bool
    ensures { result ≡ any_of (is_at T.held T.id id) places.now }
{
    places.iter().any(|place| is_at(id, *place))
}

// Whether every place holds one.
pub fn all_held<T: Place>(places: &[T]) -> bool
    ensures { result ≡ all_of T.held places.now }
{
    places.iter().all(|place| place.is_held())
}

// A new one at the place of its id.
fn replace<T: Place>(new: T, places: &mut [T])
    ensures { places.new ≡ map (replaced_at T.held T.id T.replaced new) places.old }
{
    for place in places.iter_mut() {
        if is_at(new.id(), *place) {
            *place = place.replaced_by(new);
        }
    }
}

// A new one in the first place that holds none.
fn put<T: Place>(new: T, places: &mut [T])
    ensures { places.new ≡ placed T.held new places.old }
{
    for place in places.iter_mut() {
        if !place.is_held() {
            *place = new;
            return;
        }
    }
}

// A new one among the others.
pub fn give<T: Place>(new: T, places: &mut [T])
    ensures { places.new ≡ given T.held T.id T.replaced new places.old }
{
    if holds(new.id(), places) {
        replace(new, places);
    } else {
        put(new, places);
    }
}

// The end of an id.
pub fn end<T: Place>(id: u8, places: &mut [T])
    ensures { places.new ≡ map (ended_at T.held T.id T.ended id) places.old }
{
    for place in places.iter_mut() {
        if is_at(id, *place) {
            *place = place.ended();
        }
    }
}

// What the letters of a category mean, and table 4.6-2 of 001 for a signal.
ghost use Rattle.std.specs.Prelude.{◌≡◌};
ghost use Rattle.records.specs.Numbers.{route_for, controller_of};
ghost use Rattle.records.specs.Rows.{classed_by};

use records::{Category, Condition, Route, Signal};

// R or G.
pub(crate) fn route_for(category: Category) -> Route
    ensures { result ≡ route_for category }
{
    match category {
        Category::RF | Category::RH => Route::Straight,
        Category::GF | Category::GH => Route::Diverging,
    }
}

// F or H: the signal that controls a record.
pub(crate) fn controller_of(category: Category) -> Signal
    ensures { result ≡ controller_of category }
{
    match category {
        Category::RF | Category::GF => Signal::Distant,
        Category::RH | Category::GH => Signal::Main,
    }
}

// Rows a to d: by the controlling signal, and whether it is for the record's own route.
pub(crate) fn classed_by(signal: Signal, own: bool) -> Condition
    ensures { result ≡ classed_by signal own }
{
    match (signal, own) {
        (Signal::Main, true) => Condition::DefinitelyActive,
        (Signal::Main, false) => Condition::Terminated,
        (Signal::Distant, true) => Condition::PreliminaryActive,
        (Signal::Distant, false) => Condition::PreliminaryPassive,
    }
}

// What the places hold: curves, sections and ET records.
ghost use Rattle.std.specs.Prelude.{◌≡◌, refl};
ghost use Rattle.curve.specs.Free.{free_curve};
ghost use Rattle.records.specs.Lives.{free_record};
ghost use Rattle.rules.specs.Places.{with_past, free_section, ending_section};

use crate::Place;
use curve::{Curve, free_curve};
use records::{Category, Condition, EtRecord};
use rules::Section;

// A new curve keeps the past in B that the place had.
impl Place for Curve {
    ghost free = { free_curve };

    ghost held = { λ curve. curve.held };

    ghost id = { λ curve. curve.id };

    ghost replaced = { λ new curve. with_past new curve.past };

    ghost ended = { λ _. free_curve };

    fn free() -> Curve {
        free_curve()
    }

    fn is_held(self) -> bool {
        self.held
    }

    fn id(self) -> u8 {
        self.id
    }

    fn replaced_by(self, new: Curve) -> Curve {
        Curve {
            past: self.past,
            ..new
        }
    }

    fn ended(self) -> Curve {
        free_curve()
    }

    ghost free_holds_none = { refl };

    ghost new_is_held = { λ _ _. (refl, refl) };
}

// A section whose end is told stands until the ground moved since reaches the train's length.
impl Place for Section {
    ghost free = { free_section };

    ghost held = { λ section. section.held };

    ghost id = { λ section. section.id };

    ghost replaced = { λ new _. new };

    ghost ended = { λ section. ending_section section 0 };

    fn free() -> Section {
        Section {
            held: false,
            id: 0,
            speed: 0,
            ending: false,
            covered: 0,
        }
    }

    fn is_held(self) -> bool {
        self.held
    }

    fn id(self) -> u8 {
        self.id
    }

    fn replaced_by(self, new: Section) -> Section {
        new
    }

    fn ended(self) -> Section {
        Section {
            ending: true,
            covered: 0,
            ..self
        }
    }

    ghost free_holds_none = { refl };

    ghost new_is_held = { λ _ _. (refl, refl) };
}

impl Place for EtRecord {
    ghost free = { free_record };

    ghost held = { λ et. et.curve.held };

    ghost id = { λ et. et.curve.id };

    ghost replaced = { λ new _. new };

    ghost ended = { λ _. free_record };

    fn free() -> EtRecord {
        EtRecord {
            curve: free_curve(),
            category: Category::RF,
            condition: Condition::Terminated,
        }
    }

    fn is_held(self) -> bool {
        self.curve.held
    }

    fn id(self) -> u8 {
        self.curve.id
    }

    fn replaced_by(self, new: EtRecord) -> EtRecord {
        new
    }

    fn ended(self) -> EtRecord {
        EtRecord::free()
    }

    ghost free_holds_none = { refl };

    ghost new_is_held = { λ _ _. (refl, refl) };
}

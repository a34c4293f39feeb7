// The places of sections: a new one, one whose end is told, the ground moved since. What places have in common is `holding`'s.
ghost use Rattle.std.specs.Prelude.{◌≡◌, not, ◌&&◌, map};
ghost use Rattle.rules.specs.Places.{free_section, is_section, holds_section, stands_section, all_sections_held, given_section, ended_section, moved_section};

use holding::Place;
use places::PLACES;
use rules::Section;

// A place that holds no section.
pub fn free_section() -> Section
    ensures { result ≡ free_section }
{
    Section::free()
}

// Whether a place holds the id.
pub fn holds_section(id: u8, sections: [Section; PLACES]) -> bool
    ensures { result ≡ holds_section id sections }
{
    holding::holds(id, &sections)
}

// Whether this place holds the id and its end isn't told.
fn is_standing(id: u8, section: Section) -> bool
    ensures { result ≡ (is_section id section && not section.ending) }
{
    holding::is_at(id, section) & !section.ending
}

// Whether a place holds the id and its end isn't told.
pub fn stands_section(id: u8, sections: [Section; PLACES]) -> bool
    ensures { result ≡ stands_section id sections }
{
    sections.iter().any(|section| is_standing(id, *section))
}

// Whether every place holds a section.
pub fn all_sections_held(sections: [Section; PLACES]) -> bool
    ensures { result ≡ all_sections_held sections }
{
    holding::all_held(&sections)
}

// A new section among the others.
#[tactic(auto, unfolding(rules::specs::Places::given_section))]
pub fn give_section(new: Section, sections: [Section; PLACES]) -> [Section; PLACES]
    ensures { result ≡ given_section new sections }
{
    let mut next = sections;
    holding::give(new, &mut next);
    next
}

// The sections with the one of this id ending.
#[tactic(auto, unfolding(rules::specs::Places::ended_section))]
pub fn end_section(id: u8, sections: [Section; PLACES]) -> [Section; PLACES]
    ensures { result ≡ ended_section id sections }
{
    let mut next = sections;
    holding::end(id, &mut next);
    next
}

// A section after so many cm moved: an ending one is freed once they reach the train's length, in m.
#[tactic(auto, unfolding(rules::specs::Places::moved_section))]
fn moved_section(length: u16, moved: u16, section: Section) -> Section
    ensures { result ≡ moved_section length moved section }
{
    if section.held & section.ending {
        let covered = u64::from(section.covered) + u64::from(moved);
        let whole = 100 * u64::from(length);
        if whole <= covered {
            free_section()
        } else {
            Section {
                covered: covered as u32,
                ..section
            }
        }
    } else {
        section
    }
}

// Every section after so many cm moved: at every report, so by the loop that is quicker than `map`.
pub fn move_sections(length: u16, moved: u16, sections: [Section; PLACES]) -> [Section; PLACES]
    ensures { result ≡ map (moved_section length moved) sections }
{
    let mut next = sections;
    for section in &mut next {
        *section = moved_section(length, moved, *section);
    }
    next
}

// The fresh state.
#![tactic(auto, unfolding(rules::specs::Commands::fresh_kept, rules::specs::Commands::fresh_last, rules::specs::Commands::no_train, rules::specs::Commands::fresh_with, rules::specs::Commands::fresh_stm))]

ghost use Rattle.std.specs.Prelude.{◌≡◌};
ghost use Rattle.rules.specs.Commands.{fresh_kept, fresh_last, no_train, fresh_with, fresh_stm};

use brake_test::fresh_test;
use brakes::release::fresh_brakes;
use curve::Times;
use pressure::Feed;
use rules::{Control, Kept, Last, State, Stm, Train};
use track::whole::fresh_track;
use wire::{LONGEST, REPORT_LENGTH};

// A button counts as already pressed before the first report.
fn fresh_kept() -> Kept
    ensures { result ≡ fresh_kept }
{
    Kept {
        speed: 0,
        loss: true,
        text: true,
        halka: true,
    }
}

fn fresh_last() -> Last
    ensures { result ≡ fresh_last }
{
    Last {
        bytes: [0; LONGEST],
        report: [0; REPORT_LENGTH],
    }
}

fn no_train() -> Train
    ensures { result ≡ no_train }
{
    Train {
        softly: false,
        feed: Feed::Pipe,
        speed: 0,
        length: 0,
        full: 0,
        soft: 0,
        times: Times {
            brake: 0,
            c: 0,
            permitted: 0,
            bf: 0,
            extra: 0,
        },
        margin: 0,
        emergency: 0,
        sufficient: 0,
        pressure: 0,
        check: 0,
    }
}

// Everything fresh, in DE, with this train.
pub fn fresh_with(started: bool, train: Train) -> Stm
    ensures { result ≡ fresh_with started train }
{
    Stm {
        control: Control {
            started,
            state: State::DE,
        },
        train,
        track: fresh_track(),
        brakes: fresh_brakes(),
        feedback: pressure::fresh(),
        test: fresh_test(),
        kept: fresh_kept(),
        last: fresh_last(),
    }
}

// The unit before any start.
pub fn fresh() -> Stm
    ensures { result ≡ fresh_stm }
{
    fresh_with(false, no_train())
}

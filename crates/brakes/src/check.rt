// The two brake checks.
ghost use Rattle.std.specs.Prelude.{◌≡◌, cond};
ghost use Rattle.rules.specs.declared.Check.{Check};
ghost use Rattle.rules.specs.Checks.{begins, is_drop, counted_on, fails_now, checked_at, fails_at, checked_by, check_left};

use pressure::Measured;
use rules::Check;

// A drop of 60 kPa or more.
pub fn is_drop(feedback: Measured) -> bool
    ensures { result ≡ is_drop feedback }
{
    60.0 <= pressure::drop_of(feedback.pressures)
}

// The check of an order that stood, after one more report.
fn counted_on(limit: u8, dropped: bool, check: Check) -> Check
    ensures { result ≡ counted_on limit dropped check }
{
    match check {
        Check::Idle | Check::Done => check,
        Check::Counting(count) => {
            let next = count.saturating_add(1);
            if dropped | (limit <= next) {
                Check::Done
            } else {
                Check::Counting(next)
            }
        }
    }
}

// Whether the count gets to its limit at this report with no drop.
fn fails_now(limit: u8, dropped: bool, check: Check) -> bool
    ensures { result ≡ fails_now limit dropped check }
{
    match check {
        Check::Idle | Check::Done => false,
        Check::Counting(count) => !dropped & (limit <= count.saturating_add(1)),
    }
}

// The check of an order that begins, or doesn't stand.
fn begun(stands: bool) -> Check
    ensures { result ≡ cond stands begins Check.Idle }
{
    if stands {
        Check::Counting(0)
    } else {
        Check::Idle
    }
}

// A check at an odometer report: `before` whether its order stood, `after` whether it stands now.
pub fn checked_at(before: bool, after: bool, limit: u8, dropped: bool, check: Check) -> Check
    ensures { result ≡ checked_at before after limit dropped check }
{
    if before {
        counted_on(limit, dropped, check)
    } else {
        begun(after)
    }
}

pub fn fails_at(before: bool, limit: u8, dropped: bool, check: Check) -> bool
    ensures { result ≡ fails_at before limit dropped check }
{
    before & fails_now(limit, dropped, check)
}

// A check at a command that adds causes.
pub fn checked_by(before: bool, after: bool, check: Check) -> Check
    ensures { result ≡ checked_by before after check }
{
    if before { check } else { begun(after) }
}

// A check after the releases: that of an order that has ended is over.
pub fn check_left(stands: bool, check: Check) -> Check
    ensures { result ≡ check_left stands check }
{
    if stands { check } else { Check::Idle }
}

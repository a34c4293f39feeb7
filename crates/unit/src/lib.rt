// The unit of 01: a state, and one call for every command. The state goes in and comes out by value, the command
// bytes and the report area are lent.
//
// No public function has a `requires`: each is defined at every state, at every bytes and at every area.
#![tactic(auto)]

ghost use Rattle.std.specs.Prelude.{◌≡◌, true, false, cond, eqb, length};
ghost use Rattle.wire.specs.Form.{report_length, operand_part};
ghost use Rattle.rules.specs.Numbers.{is_accepted, is_refused};
ghost use Rattle.rules.specs.Calls.{call_of, area_of};

use encoding::numbers::is_accepted;
pub use encoding::numbers::{answer_number, is_answered};
use rules::{Outcome, Stm};
pub use steps::fresh;
use wire::REPORT_LENGTH;

// The operand part of a command, a part of the caller's own bytes; empty at refusals 1 to 4.
pub fn operands(command: &[u8], area: usize) -> &[u8]
    ensures { result.now ≡ operand_part command.now area }
{
    wire::operands(command, area)
}

// Writes a report into an area of its length, and nothing into any other.
fn write(bytes: [u8; REPORT_LENGTH], report: &mut [u8])
    ensures { report.new ≡ cond (eqb report_length (length report.old)) bytes report.old }
{
    wire::copy_whole(&bytes, report);
}

// One command. The report area is written whole at answers 0 and 100 and left alone at every other; the state moves
// at answer 0 only.
pub fn call(stm: Stm, command: &[u8], report: &mut [u8]) -> Outcome
    ensures outcome { result ≡ call_of stm command.now (length report.old) }
    ensures area { report.new ≡ area_of result report.old }
    ensures unit_stays { is_accepted result.answer ≡ false → result.stm ≡ stm }
    ensures area_stays { is_refused result.answer ≡ true → report.new ≡ report.old }
{
    let area = report.len();
    let answer = refusals::answer_of(stm, command, area);
    if is_accepted(answer) {
        let next = steps::accept(command, operands(command, area), stm);
        write(next.last.report, report);
        return Outcome { answer, stm: next };
    }
    if is_answered(answer) {
        write(stm.last.report, report);
    }
    Outcome { answer, stm }
}

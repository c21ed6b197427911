// What the program planrun prints for a plan's text.
ghost use Rattle.std.specs.Prelude.{◌≡◌, true};
ghost use Rattle.plan.specs.Validity.{plan_valid};
ghost use Rattle.report.specs.Planrun.{planrun_run, ran_lines};
ghost use Rattle.report.specs.Theorems.{PlanrunWrote};
ghost use Rattle.lists.specs.Writing.{Wrote};

use crate::limits::{LARGEST_LIMIT, PLANRUN_LOG};
use crate::{write_refusal, write_run};
use cache::limits::TABLE_LENGTH;
use engine::running::run;
use engine::starting::fresh_start;
use ops::limits::BOXES_LENGTH;
use plan::Plan;
use reader::read_plan;
use refusal::Code;
use script::limits::SCRIPTS_LENGTH;

// The lines of an accepted plan, run from a fresh start to its end.
fn run_lines(plan: Plan, scripts: &[u32], out: &mut [u8]) -> usize
    requires { plan_valid plan ≡ true }
    ensures { Wrote out.old 0 (ran_lines plan (planrun_run plan scripts.now).world)
        out.new result }
{
    let mut cache = [0u16; TABLE_LENGTH];
    let mut boxes = [0u32; BOXES_LENGTH];
    let mut log = [0u8; PLANRUN_LOG];
    let mut state = fresh_start(plan, &mut cache, &mut boxes).unwrap();
    // its state and its log are printed, whatever it answers
    let _ = run(
        plan,
        scripts,
        &mut state,
        &mut cache,
        &mut boxes,
        &mut log,
        LARGEST_LIMIT,
    );
    write_run(plan, state, &log, out)
}

// The lines for a plan's text: those of its run, or of its refusal.
pub fn plan_lines(text: &[u8], out: &mut [u8]) -> usize
    ensures { PlanrunWrote text.now out.old out.new result }
{
    let mut scripts = [0u32; SCRIPTS_LENGTH];
    match read_plan(text, &mut scripts) {
        Ok(plan) => run_lines(plan, &scripts, out),
        Err(refusal) => write_refusal(Code::from(refusal), out),
    }
}

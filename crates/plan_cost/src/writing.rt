ghost use Rattle.plan_cost.specs.PlanText.{IsWritable, plan_text};
ghost use Rattle.std.specs.Prelude.{◌≡◌, IfOk};

use crate::plan::Plan;
use crate::record::{PlanRecord, push_record};
use std::alloc::{AllocError, Global};

/// The text of a plan, as a plan file has it (docs/FORMATS.md). A plan that fits a case can always be written.
pub fn write_plan(alloc: Global, plan: &Plan) -> Result<Vec<u8>, AllocError>
    requires { IsWritable plan.now.choice }
    ensures { IfOk result (λ text. text.items ≡ plan_text plan.now.choice) }
{
    let trains = plan.choice.len();
    let mut text = Vec::new(alloc);
    push_record(alloc, PlanRecord::Header(trains as u16), &mut text)?;
    for train in 0..trains {
        let choice = PlanRecord::Choice(train as u16, plan.number(train));
        push_record(alloc, choice, &mut text)?;
    }
    push_record(alloc, PlanRecord::End, &mut text)?;
    Ok(text)
}

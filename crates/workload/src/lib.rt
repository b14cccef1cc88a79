// The workload of a plan's kind: document 01, "Supply and verdict". Any record and any kind number
// is answered. A place that the record does not have holds zeros, and adds nothing.
#![tactic(auto)]

ghost use Rattle.std.specs.Prelude.{◌≡◌, ◌≤◌, ◌<◌, min};
ghost use Rattle.plan.specs.Order.{kind_of};
ghost use Rattle.workload.specs.Workload.{workload};

use plan::{Kind, Plan};

// The kind of this number. Beyond the record's places it is all zeros.
fn kind_at(plan: Plan, kind: usize) -> Kind
    ensures { result ≡ kind_of plan kind }
{
    plan.kind.get(kind).copied().unwrap_or_default()
}

// What every other kind of the same project adds up to, against this kind's deadline.
pub fn workload(plan: Plan, kind: usize) -> u64
    ensures { result ≡ workload plan kind }
{
    let judged = kind_at(plan, kind);
    let mut sum: u64 = 0;
    let places = (plan.kinds as usize).min(Plan::KINDS);
    for (j, other) in plan.kind[..places].iter().enumerate() {
        if j == kind {
            continue;
        }
        if other.project != judged.project {
            continue;
        }
        sum += u64::from(supply::workload_part(
            other.separation,
            other.deadline,
            other.length,
            judged.deadline,
        ));
    }
    sum
}

// A plan that the record check found in order: what is laid out, judged and run takes it, and asks no
// more.
ghost use Rattle.plan.specs.Order.{InOrder};

use crate::Plan;

#[derive(Clone, Copy)]
pub struct Ordered {
    pub plan: Plan,
    ghost in_order: { InOrder plan },
}

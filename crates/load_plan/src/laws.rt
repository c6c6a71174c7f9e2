//! Laws of plans: calls without a body, whose contracts are the laws.
ghost use Rattle.layout.specs.Sound.{IsSound};
ghost use Rattle.load_plan.specs.declared.plan.Plan.{Plan};

/// The layout of a plan is sound.
pub fn a_plan_is_sound()
    ensures { (plan : Plan) → IsSound plan.layout }
{}

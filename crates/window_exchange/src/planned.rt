//! A plan in a type.
ghost use Rattle.std.specs.Prelude.{Option};
ghost use Rattle.load_plan.specs.declared.plan.Plan.{Plan};

use std::marker::Brand;

/// For which plan a box and its mail are. Each run picks its own, and `Brand` alone names none.
pub trait Planned {
    ghost plan: { Option Plan };
}

impl Planned for Brand {
    ghost use Rattle.std.specs.Prelude.{None};

    ghost plan = { None };
}

//! Parts in order of their numbers.
ghost use Rattle.std.specs.Prelude.{◌≡◌, ◌<◌, ◌+◌, ◌++◌, ◌^◌, ◌∷◌, All, IfNone, IfOk, IfSome, IsPermutation, OnOk, Some, map, reverse};
ghost use Rattle.net_parts.specs.Windows.{windows};
ghost use Rattle.worker_gate.specs.FinishedParts.{AreFinished, HaveFinished};

use lists::OutOfMemory;
use load_plan::Plan;
use net_parts::Part;
use std::alloc::Global;
use std::marker::PhantomData;
use window_exchange::Planned;

/// A part of the plan of `P`.
#[derive(Drop)]
pub struct Own<P: Planned, S: Part> {
    part: S,
    of: PhantomData<P>,
    ghost planned: { Some (S.plan part) ≡ P.plan },
}

/// Puts parts behind others, the last of them first.
#[tactic(auto, using(crate::proofs::GatheredParts::all_before))]
pub fn put_parts<P: Planned, S: Part>(
    owns: &mut Vec<Own<P, S>>,
    parts: Vec<S>,
) -> Result<(), OutOfMemory>
    requires { All (λ s. Some (S.plan s) ≡ P.plan) parts.items }
    ensures { OnOk result (map (λ o. o.part) owns.new.items ≡ map (λ o. o.part) owns.old.items ++ reverse parts.items) }
{
    let mut parts = parts;
    while let Some(part) = parts.pop() {
        owns.push(Own {
            part,
            of: PhantomData,
        })?;
    }
    Ok(())
}

/// Takes the part of this number out, if it is there and has made all windows.
fn pick<P: Planned, S: Part>(owns: &mut Vec<Own<P, S>>, number: u32) -> Option<S>
    ensures some { IfSome result (λ s. (Some (S.plan s) ≡ P.plan) × (S.number s ≡ number) × (S.at s ≡ windows (S.plan s))) }
    ensures left { IfSome result (λ s. IsPermutation (map (λ own. own.part) owns.old.items) (s ∷ map (λ own. own.part) owns.new.items)) }
    ensures none { IfNone result (HaveFinished S.plan S.number S.at number 1 (map (λ own. own.part) owns.old.items) → ⊥) }
{
    for i in 0..owns.len() {
        if owns[i].part.part() == number {
            let Own { part, of: _ } = owns.swap_remove(i);
            if part.part() == number && part.window() == part.windows() {
                return Some(part);
            }
            return None;
        }
    }
    None
}

/// So many parts from number `first` on; none where one isn't there or hasn't made all windows.
pub fn gather<P: Planned, S: Part>(
    alloc: Global,
    plan: &Plan,
    owns: Vec<Own<P, S>>,
    first: u32,
    count: u32,
) -> Result<Option<Vec<S>>, OutOfMemory>
    requires boxed { Some plan.now ≡ P.plan }
    requires numbers { first + count < 2 ^ 32 }
    ensures some { IfOk result (λ o. IfSome o (λ v. AreFinished S.plan S.number S.at plan.now first count v.items)) }
    ensures none { IfOk result (λ o. IfNone o (HaveFinished S.plan S.number S.at first count (map (λ own. own.part) owns.items) → ⊥)) }
{
    let mut owns = owns;
    let mut parts = Vec::new(alloc);
    for k in 0..count {
        let Some(part) = pick(&mut owns, first + k) else {
            return Ok(None);
        };
        parts.push(part)?;
    }
    Ok(Some(parts))
}

//! The pair of stations that is farthest apart.
ghost use Rattle.std.specs.Prelude.{◌≡◌, ℕ, ◌+◌, ◌^◌, ◌<◌, ◌≤◌};
ghost use Rattle.std.specs.Option.{ForSome};
ghost use Rattle.path_slack.specs.Pairs.{pair_over, worse_of, worse_pair};

use path_checker::Far;

/// Two stations, the lower one first, and how far apart they are in half bits.
#[derive(Clone, Copy)]
pub struct FarthestPair {
    pub length: u32,
    pub a: u32,
    pub b: u32,
}

/// The pair of the stations that two sides reach.
pub fn pair_over(near: Option<Far>, far: Option<Far>) -> Option<FarthestPair>
    requires near { ForSome near (λ r. r.length < 2 ^ 30) }
    requires far { ForSome far (λ r. r.length < 2 ^ 30) }
    ensures { result ≡ pair_over near far }
{
    let Some(near) = near else {
        return None;
    };
    let Some(far) = far else {
        return None;
    };
    let length = near.length + far.length;
    if near.station < far.station {
        return Some(FarthestPair {
            length,
            a: near.station,
            b: far.station,
        });
    }
    Some(FarthestPair {
        length,
        a: far.station,
        b: near.station,
    })
}

/// The pair that is farther apart, and the first one of two that are equally far.
fn worse_pair(v: FarthestPair, w: FarthestPair) -> FarthestPair
    ensures { result ≡ worse_pair v w }
{
    if v.length < w.length {
        return w;
    }
    if w.length < v.length {
        return v;
    }
    if w.a < v.a {
        return w;
    }
    if v.a < w.a {
        return v;
    }
    if w.b < v.b { w } else { v }
}

/// The worse one of two pairs that there may be.
pub fn worse(v: Option<FarthestPair>, w: Option<FarthestPair>) -> Option<FarthestPair>
    ensures { result ≡ worse_of v w }
{
    match (v, w) {
        (None, _) => w,
        (Some(_), None) => v,
        (Some(v), Some(w)) => Some(worse_pair(v, w)),
    }
}

ghost use Rattle.std.specs.Prelude.{ℕ};
ghost use Rattle.theory.specs.Regular.{Climbs, Mono};
ghost use Rattle.response.specs.Solving.{Computes, Searchable, LeastUpTo};

/// The least solution x of x = demand(x), where it is not above the top. It climbs there from a number that is not above
/// it: each value of the demand is such a number again.
pub fn least_solution<F: Fn(u32) -> u64>(demand: F, from: u32, top: u32) -> Option<u32>
    requires { Searchable F.pre F.post demand from top }
    ensures { (low : ℕ) (f : ℕ → ℕ) → Computes (F.post demand) f top → Mono f → Climbs low f from → LeastUpTo low f top result }
{
    let mut x = u64::from(from);
    while x <= u64::from(top) {
        let next = demand(x as u32);
        if next == x {
            return Some(x as u32);
        }
        x = next;
    }
    None
}

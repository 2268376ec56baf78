ghost use Rattle.std.specs.Prelude.{◌≡◌, ◌*◌, ◌≤◌, length};
ghost use Rattle.theory.specs.Arrivals.{before};
ghost use Rattle.names.specs.Timings.{timing_of};
ghost use Rattle.response.specs.Ticks.{ticks_of};

use super::source::Source;
use sheet::row::Row;

/// How many jobs of a row are released before x, when they come as soon as they may.
pub fn releases_before(row: &Row, x: u32) -> u32
    ensures value { result ≡ before (timing_of row.now.timing) x }
    ensures bound { result ≤ x }
{
    x.div_ceil(row.timing.separation)
}

impl Source {
    fn ticks(&self, x: u32) -> u64
        ensures value { result ≡ before (timing_of self.now.row.timing) x * self.now.price }
        ensures bound { result ≤ 76561185057538050 }
    {
        u64::from(releases_before(&self.row, x)) * u64::from(self.price)
    }
}

/// The ticks that some rows take for the jobs that they release before x.
pub fn ticks(sources: &[Source], x: u32) -> u64
    requires { length sources.now ≤ 32 }
    ensures value { result ≡ ticks_of sources.now x }
    ensures bound { result ≤ 2449957921841217600 }
{
    // No chain to `sum`: the bound on the sum is not proved there.
    let mut sum: u64 = 0;
    for source in sources {
        sum += source.ticks(x);
    }
    sum
}

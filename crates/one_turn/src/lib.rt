// One turn of a tile that is solved by itself: what a run does to all runs after it, on the way down and on the way up.
#![tactic(auto)]

ghost use Rattle.std.specs.Prelude.{◌≡◌, ◌-◌, ◌≤◌, length};
ghost use Rattle.system.specs.Order.{Ordered};
ghost use Rattle.tiles.specs.Even.{lag};
ghost use Rattle.one_turn.specs.Tables.{even_shift, Tables, RunsApart};
ghost use Rattle.one_turn.specs.Steps.Turns.{TurnDown, TurnUp};

// The ranks 1..hi of a system: their exponents, and when each begins.
#[derive(Clone, Copy)]
pub struct Ranks<'a> {
    pub hi: usize,
    pub exps: &'a [usize],
    pub delays: &'a [usize],
    pub ghost tables: { Tables hi exps.now delays.now },
}

impl Ranks<'_> {
    // How many rounds before its own an equation of rank `b` reads sequence `a`, which is none after its own.
    fn lag(&self, b: usize, a: usize) -> usize
        requires { (1 ≤ a) × (a ≤ b) × (b ≤ self.now.hi) }
        ensures { result ≡ lag (even_shift self.now.exps.now) b a }
    {
        self.delays[b - 1] - self.delays[a - 1] - self.exps[b - 1] * (b - a)
    }
}

// One turn of the way down: run j, moved right by its lag, is added to each run after it, and that one is summed up in strides of the difference of the two exponents.
pub fn down_turn(part: &mut [u8], ranks: &Ranks, starts: &[usize], j: usize, count: usize)
    requires turn { (1 ≤ j) × (j ≤ ranks.now.hi) }
    requires runs { RunsApart starts.now (j - 1) ranks.now.hi count (length part.old) }
    ensures { TurnDown ranks.now.exps.now starts.now ranks.now.hi count j ranks.now.hi part.old part.new }
{
    for b in j..ranks.hi {
        let moved = ranks.lag(b + 1, j);
        one_run::add_earlier(part, starts[b], starts[j - 1], moved, count);
        let stride = ranks.exps[j - 1] - ranks.exps[b];
        one_run::sum_up(part, starts[b], count, stride);
    }
}

// One turn of the way up: to each run from j on the one after it is added, moved right by the difference of the exponents of j and that one. It needs no delays.
pub fn up_turn(part: &mut [u8], exps: &[usize], starts: &[usize], j: usize, hi: usize, count: usize)
    requires tables { (Ordered hi (even_shift exps.now)) × (length exps.now ≡ 16) × (1 ≤ j) × (j ≤ hi) }
    requires runs { RunsApart starts.now (j - 1) hi count (length part.old) }
    ensures { TurnUp exps.now starts.now hi count j hi part.old part.new }
{
    for b in j..hi {
        let moved = exps[j - 1] - exps[b];
        one_run::add_later(part, starts[b - 1], starts[b], moved, count);
    }
}

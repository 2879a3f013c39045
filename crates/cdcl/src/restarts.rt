ghost use Rattle.std.specs.Prelude.{◌≡◌, ◌+◌, ◌-◌, ◌%◌, ◌^◌, ◌<◌, ◌&&◌, true, nat_le, nat_lt};

// How many clashes the first stretch has, and each that begins a round of longer ones.
const SHORTEST: u32 = 100;

// When the search begins anew.
#[derive(Clone, Copy)]
pub(crate) struct Restarts {
    // How many restarts are left.
    pub left: u32,
    // How many clashes there were since the last one, and how many to wait for.
    since: u32,
    wait: u32,
    // Past this many the wait is short again.
    most: u32,
}

impl Restarts {
    // Makes restarts of which the first is due after the shortest stretch, and none is used up.
    pub fn new() -> Restarts
        ensures left { result.left ≡ 2 ^ 32 - 1 }
        ensures waits { (result.since ≡ 0) × (result.wait ≡ SHORTEST) × (result.most ≡ SHORTEST) }
    {
        Restarts {
            left: u32::MAX,
            since: 0,
            wait: SHORTEST,
            most: SHORTEST,
        }
    }

    pub fn is_due(&self) -> bool
        ensures due { result ≡ (nat_le self.now.wait self.now.since && nat_lt 0 self.now.left) }
        ensures some { result ≡ true → 0 < self.now.left }
    {
        self.since >= self.wait && self.left > 0
    }

    // Begins the next stretch of clashes: it is a tenth longer each time, and the shortest again past the most, which grows then.
    pub fn begin_next(&mut self)
        requires { 0 < self.old.left }
        ensures left { self.new.left + 1 ≡ self.old.left }
        ensures since { self.new.since ≡ 0 }
    {
        self.left -= 1;
        self.since = 0;
        self.wait = if self.wait > self.most {
            SHORTEST
        } else {
            self.wait.saturating_add(self.wait / 10)
        };
        if self.wait == SHORTEST {
            self.most = self.most.saturating_add(self.most / 10);
        }
    }

    pub fn count_clash(&mut self)
        ensures left { self.new.left ≡ self.old.left }
        ensures since { self.new.since ≡ (self.old.since + 1) % 2 ^ 32 }
        ensures waits { (self.new.wait ≡ self.old.wait) × (self.new.most ≡ self.old.most) }
    {
        self.since = self.since.wrapping_add(1);
    }
}

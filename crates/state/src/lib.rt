// What a watch holds, by value: the crates below `watch` are handed it whole, so that a number more changes none of their signatures.
// Every function takes constant time, but for one store for each entry that is opened or added.
#![tactic(auto)]

ghost use Rattle.std.specs.Prelude.{◌≡◌, ◌+◌, ◌<◌, ◌≤◌};
ghost use Rattle.state.specs.State.{empty_state, with_entries, open_state, extended, with_event, marked, raised};

// Open instant, floor, count of events, count of rows, and the events of the open instant: how many, and their codes in their order
// with zeros behind them. Then how many entries the chart has, and for each the instant from which it counts, with zeros behind them. In C's
// layout, for a host in C.
#[repr(C)]
#[derive(Clone, Copy)]
pub struct WatchState {
    pub instant: i32,
    pub floor: i32,
    pub events: usize,
    pub rows: usize,
    pub pending: usize,
    pub codes: [u8; 64],
    pub entries: usize,
    pub since: [i32; 32],
}

// No rows, no events and no entries at an instant.
pub fn empty(instant: i32) -> WatchState
    ensures { result ≡ empty_state instant }
{
    WatchState {
        instant,
        floor: interval::first_floor(),
        events: 0,
        rows: 0,
        pending: 0,
        codes: [0; 64],
        entries: 0,
        since: [0; 32],
    }
}

// The same with n entries, which count from the opening floor.
pub fn opened(n: usize, instant: i32) -> WatchState
    requires { n ≤ 32 }
    ensures { result ≡ open_state n instant }
{
    empty(instant).with_entries(n, interval::first_floor())
}

impl WatchState {
    // So many entries more, which count from x.
    fn with_entries(self, n: usize, x: i32) -> WatchState
        requires { self.entries + n ≤ 32 }
        ensures { result ≡ with_entries self n x }
    {
        let entries = self.entries + n;
        let mut since = self.since;
        since[self.entries..entries].fill(x);
        WatchState {
            entries,
            since,
            ..self
        }
    }

    // So many entries more, which count from the open instant.
    pub fn extended(self, n: usize) -> WatchState
        requires { self.entries + n ≤ 32 }
        ensures { result ≡ extended self n }
    {
        self.with_entries(n, self.instant)
    }

    // One event more at the open instant. The state is made anew: storing into a copy of the old one copies the codes once more.
    pub fn with_event(self, k: u8) -> WatchState
        requires { (self.pending < 64) × (self.events < 1000000) }
        ensures { result ≡ with_event self k }
    {
        let mut codes = self.codes;
        codes[self.pending] = k;
        WatchState {
            events: self.events + 1,
            pending: self.pending + 1,
            codes,
            ..self
        }
    }

    // The next open instant, with n rows.
    pub fn marked(self, instant: i32, n: usize) -> WatchState
        ensures { result ≡ marked self instant n }
    {
        WatchState {
            instant,
            rows: n,
            pending: 0,
            codes: [0; 64],
            ..self
        }
    }

    // A higher floor, with so many rows.
    pub fn raised(self, floor: i32, rows: usize) -> WatchState
        ensures { result ≡ raised self floor rows }
    {
        WatchState {
            floor,
            rows,
            ..self
        }
    }
}

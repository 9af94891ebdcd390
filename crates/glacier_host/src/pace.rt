// How fast a client must take or send, so that the others needn't wait for it.
ghost use Rattle.std.specs.Prelude.{◌≡◌, ◌-◌, if◌then◌else◌};
ghost use Rattle.glacier_host.specs.declared.pace.TheConstants.{WINDOW_BYTES, WINDOW_MILLIS};
ghost use Rattle.glacier_host.specs.Paces.{is_slow, moving, next_window, pace_from};

/// How long a client may be silent while no other waits, and how long a window is while one does, in
/// milliseconds.
pub const WINDOW_MILLIS: u64 = 5_000;

/// How many bytes must move in each window while another client waits.
pub const WINDOW_BYTES: u64 = 65_536;

/// What has moved inside a message. Times are in milliseconds of one clock.
#[derive(Clone, Copy)]
pub struct Pace {
    /// When the window began.
    pub since: u64,
    /// Another client has waited since then.
    pub is_watched: bool,
    /// How many bytes have moved in it.
    pub moved: u64,
    /// When a byte moved last, or the wait for the first began.
    pub last: u64,
}

impl Pace {
    /// A window that begins now.
    pub fn new(now: u64) -> Pace
        ensures { result ≡ pace_from now }
    {
        Pace {
            since: now,
            is_watched: false,
            moved: 0,
            last: now,
        }
    }

    /// So many bytes moved.
    pub fn moves(&mut self, count: usize, now: u64)
        ensures { self.new ≡ moving self.old count now }
    {
        self.moved = self.moved.saturating_add(count as u64);
        self.last = now;
    }

    /// Whether the client is too slow, by whether another waits. A window begins where one is over, or
    /// where no other waited till now.
    pub fn is_too_slow(&mut self, now: u64, others_wait: bool) -> bool
        ensures slow { result ≡ is_slow self.old now others_wait }
        ensures window { self.new ≡ next_window self.old now others_wait }
    {
        let is_slow = if others_wait {
            self.is_watched
                && now.saturating_sub(self.since) >= WINDOW_MILLIS
                && self.moved < WINDOW_BYTES
        } else {
            now.saturating_sub(self.last) >= WINDOW_MILLIS
        };
        let goes_on = others_wait
            && self.is_watched
            && now.saturating_sub(self.since) < WINDOW_MILLIS;
        if !goes_on {
            self.since = now;
            self.is_watched = others_wait;
            self.moved = 0;
        }
        is_slow
    }

    /// How long it may go on so before it is too slow, in milliseconds.
    pub fn left(&self, now: u64) -> u64
        ensures { result ≡ WINDOW_MILLIS
            - (now - (if self.now.is_watched then self.now.since else self.now.last)) }
    {
        let since = if self.is_watched {
            self.since
        } else {
            self.last
        };
        WINDOW_MILLIS.saturating_sub(now.saturating_sub(since))
    }
}

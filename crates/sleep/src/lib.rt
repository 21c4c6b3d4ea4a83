// The sleep watch: a truck sleeps 10 seconds after its last wake source went off, and not before.
//
// For a main loop that keeps one `Watch` and calls `update` at each turn with its millisecond clock. The clock may run
// over its 32 bits. No function has a `requires`: every watch, time and wake is answered, and a refused call leaves the
// watch as it stood. `specs/Watching.antt` says what each call does, for every input.
#![tactic(auto)]

ghost use Rattle.std.specs.Prelude.{◌≡◌, Err};
ghost use Rattle.sleep.specs.Watching.{awake_at, sleep_refusal, after_call, watch_and_answer};

// The clock's time at the last wake, and whether the truck sleeps.
#[derive(Clone, Copy, Debug, PartialEq, Eq)]
pub struct Watch {
    pub last_wake: u32,
    pub asleep: bool,
}

// While awake the time is half the circle or more past the last wake: read as a clock that went back.
#[derive(Clone, Copy, Debug, PartialEq, Eq)]
pub struct ClockWentBack;

// The watch after a call, and the call's answer; a refused call leaves the watch as it went in.
// Kept: a `Result` of the watch, tried, and it misses a bar of speed that the pair meets: `pc_sleep_watch` is then 16 to 18
// instructions, over the 15 of plain C, and by the pair 12.
#[derive(Clone, Copy, Debug, PartialEq, Eq)]
pub struct Updated {
    pub watch: Watch,
    pub answer: Result<(), ClockWentBack>,
}

const SLEEPS_AFTER: u32 = 10000;

const HALF_THE_CIRCLE: u32 = 2147483648;

// Document 01's number of the refusal.
impl From<ClockWentBack> for u32 {
    ghost from_gives = { λ why number. number ≡ sleep_refusal (Err why) };

    fn from(_why: ClockWentBack) -> u32 {
        51
    }
}

impl Watch {
    // A watch starts awake, at the time given.
    pub fn new(time: u32) -> Watch
        ensures { result ≡ awake_at time }
    {
        Watch {
            last_wake: time,
            asleep: false,
        }
    }

    // One call, by value: the watch goes in and comes back. The rules stand here and nowhere else.
    pub fn updated(self, time: u32, wake: bool) -> Updated
        ensures { result ≡ after_call self time wake }
    {
        let woken = Watch::new(time);
        if self.asleep {
            if wake {
                return Updated {
                    watch: woken,
                    answer: Ok(()),
                };
            }
            return Updated {
                watch: self,
                answer: Ok(()),
            };
        }
        // The milliseconds since the last wake, round the 32-bit circle.
        let passed = time.wrapping_sub(self.last_wake);
        if HALF_THE_CIRCLE <= passed {
            return Updated {
                watch: self,
                answer: Err(ClockWentBack),
            };
        }
        if wake {
            return Updated {
                watch: woken,
                answer: Ok(()),
            };
        }
        Updated {
            watch: Watch {
                last_wake: self.last_wake,
                asleep: SLEEPS_AFTER <= passed,
            },
            answer: Ok(()),
        }
    }
}

// One call on the watch where it stands.
pub fn update(watch: &mut Watch, time: u32, wake: bool) -> Result<(), ClockWentBack>
    ensures { watch_and_answer watch.new result ≡ after_call watch.old time wake }
{
    let next = watch.updated(time, wake);
    *watch = next.watch;
    next.answer
}

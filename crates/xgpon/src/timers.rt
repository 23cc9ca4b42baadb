// The three timers of the OLT (003, 15.5.3.2).
ghost use Rattle.std.specs.Prelude.{◌≡◌};
ghost use Rattle.xgpon.specs.Timers.{recommended_starts};

pub const TK1_START_MS: u32 = 100;

pub const TK2_START_MS: u32 = 10;

pub const TK3_START_MS: u32 = 10;

// A flag for each timer, 0 or 1: an octet, as C reads it.
#[repr(C)]
#[derive(Clone, Copy)]
pub struct Timers {
    pub tk1: u8,
    pub tk2: u8,
    pub tk3: u8,
}

pub(crate) const NO_TIMER: Timers = Timers {
    tk1: 0,
    tk2: 0,
    tk3: 0,
};

pub(crate) const ONLY_TK2: Timers = Timers {
    tk1: 0,
    tk2: 1,
    tk3: 0,
};

pub(crate) const ONLY_TK3: Timers = Timers {
    tk1: 0,
    tk2: 0,
    tk3: 1,
};

pub(crate) const TK1_AND_TK2: Timers = Timers {
    tk1: 1,
    tk2: 1,
    tk3: 0,
};

pub(crate) const TK1_AND_TK3: Timers = Timers {
    tk1: 1,
    tk2: 0,
    tk3: 1,
};

// What each timer starts from, in milliseconds.
#[repr(C)]
#[derive(Clone, Copy)]
pub struct TimerStarts {
    pub tk1: u32,
    pub tk2: u32,
    pub tk3: u32,
}

pub fn recommended_starts() -> TimerStarts
    ensures { result ≡ recommended_starts }
{
    TimerStarts {
        tk1: TK1_START_MS,
        tk2: TK2_START_MS,
        tk3: TK3_START_MS,
    }
}

// One move of a process.
ghost use Rattle.std.specs.Prelude.{◌≡◌, ◌==◌};

// The motion of a silent step.
pub const SILENT: u8 = 0;

// The last motion; the first is 1.
pub const LAST_MOTION: u8 = 24;

// A motion, and the state that it leads to.
#[derive(Clone, Copy, Debug, PartialEq, Eq)]
pub struct Move {
    pub motion: u8,
    pub target: u8,
}

impl Move {
    // Is it a silent step?
    pub fn is_silent(self) -> bool
        ensures { result ≡ (self.motion == 0) }
    {
        self.motion == SILENT
    }
}

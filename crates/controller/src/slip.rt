// Slips: what a release gives, and done or failed takes.
ghost use Rattle.std.specs.Prelude.{◌≡◌, true};

// It may be let go only once it is spent, and only done and failed spend it.
// Kept: the flag is what `drop` asks for; so a slip that is let go unspent is a proof that fails.
pub struct Slip {
    pub(crate) number: u32,
    pub(crate) spent: bool,
}

impl Slip {
    // The number that the slip bears.
    pub fn number(&self) -> u32
        ensures { result ≡ self.now.number }
    {
        self.number
    }
}

impl Drop for Slip {
    fn drop(self)
        requires { self.spent ≡ true }
    {
        let Slip {
            number: _,
            spent: _,
        } = self;
    }
}

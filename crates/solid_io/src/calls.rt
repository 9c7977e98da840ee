ghost use Rattle.std.specs.Prelude.{◌≡◌, ◌↔◌, IsTrue};
ghost use Rattle.solid_base.specs.Ledgers.{counted};

use solid_base::Numbers;

/// The numbers of the calls that fail, and how many calls were made and failed so far.
#[derive(Drop)]
pub struct Calls {
    fails: Numbers,
    made: u64,
    faults: u64,
}

impl Calls {
    ghost use Rattle.solid_io.specs.Calls.{IsListed, after_call};

    /// No call yet. The calls with the numbers in `fails`, counted from 0, will fail.
    pub fn new(fails: Numbers) -> Calls
        ensures { result ≡ record { fails = fails; made = 0; faults = 0 } }
    {
        Calls {
            fails,
            made: 0,
            faults: 0,
        }
    }

    /// Counts a call, and answers whether it is listed.
    pub fn begin(&mut self) -> bool
        ensures listed { IsTrue result ↔ IsListed self.old }
        ensures counted { self.new ≡ after_call self.old }
    {
        let call = self.made;
        self.made = call.saturating_add(1);
        self.fails
            .as_slice()
            .iter()
            .any(|listed| u64::from(*listed) == call)
    }

    /// Counts a failure.
    pub fn fail(&mut self)
        ensures { self.new ≡ record self.old { faults = counted self.old.faults 1 } }
    {
        self.faults = self.faults.saturating_add(1);
    }
}

// What is refused before any access of a run: 11. The lengths that are refused at the begin are in `kinds`.

ghost use Rattle.std.specs.Prelude.{◌≡◌};
ghost use Rattle.parked.specs.Refusals.{ended, wrong};

use crate::Parked;
use crate::phases::CountEffect;

impl Parked {
    // Whether no access follows.
    fn ended(self) -> bool
        ensures { result ≡ ended self }
    {
        self.phase.count_effect() == CountEffect::NoAccess
    }

    // Whether a run is a wrong call, with slices of these lengths.
    #[tactic(auto, unfolding(crate::specs::Refusals::wrong))]
    pub fn wrong(self, send: usize, receive: usize) -> bool
        ensures { result ≡ wrong self send receive }
    {
        self.ended()
            || self.send != send
            || self.receive != receive
            || !self.kind.lengths(send, receive)
            || self.span() < self.count
    }
}

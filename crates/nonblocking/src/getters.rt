// What a link holds: `get_data` and `get_address`, of the master and of the slave.

ghost use Rattle.std.specs.Prelude.{◌≡◌, List, ℕ};
ghost use Rattle.nonblocking.specs.Steps.{Follows, getter_plan};
ghost use Rattle.nonblocking.specs.Meets.{Meets};
ghost use Rattle.nonblocking_meaning.specs.Call.{master_get_data, slave_get_data, get_address};
ghost use Rattle.nonblocking.specs.Model.{model};

use crate::link::{Called, Link};
use registers::answers::{Answer, Refusal};
use registers::call_log::Report;

impl Link {
    // Shows as many bytes as the last transfer was to have.
    #[tactic(auto, unfolding(nonblocking_meaning::specs::Outcome::outcome))]
    pub fn master_get_data(self) -> Called
        ensures same_link { result.link ≡ self }
        ensures matches { (words log : List ℕ) → Meets master_get_data words self result.report result.link log log }
    {
        let tried = self.get(Answer::Bytes(self.length));
        Called::of(self, tried)
    }

    // Shows as many bytes as the last transfer moved.
    #[tactic(auto, unfolding(nonblocking_meaning::specs::Outcome::outcome))]
    pub fn slave_get_data(self) -> Called
        ensures same_link { result.link ≡ self }
        ensures matches { (words log : List ℕ) → Meets slave_get_data words self result.report result.link log log }
    {
        let tried = self.get(Answer::Bytes(self.index));
        Called::of(self, tried)
    }

    // The address of the last transfer.
    #[tactic(auto, unfolding(nonblocking_meaning::specs::Outcome::outcome))]
    pub fn get_address(self) -> Called
        ensures same_link { result.link ≡ self }
        ensures matches { (words log : List ℕ) → Meets get_address words self result.report result.link log log }
    {
        let tried = self.get(Answer::Address(self.address));
        Called::of(self, tried)
    }

    fn get(&self, answer: Answer) -> Result<Report, Refusal>
        ensures { (words log : List ℕ) → Follows (getter_plan answer (model self.now)) words (model self.now) result (model self.now) log log }
    {
        self.possible()?;
        Ok(Report::without_access(answer))
    }
}

// What holds of the definitions of a run (`blocking_meaning`), for every call, as promises of this crate.

ghost use Rattle.blocking_meaning.specs.BufferLaw.{BufferLaw};
ghost use Rattle.blocking_meaning.specs.CutLaw.{CutLaw};
ghost use Rattle.blocking_meaning.specs.NextLaw.{NextLaw};

// However the words are cut, the runs joined are one uncut run; a caller may keep one list that grows and one count.
#[tactic(auto, using(blocking_meaning::proofs::Cuts::cut_law))]
pub fn cut_law()
    ensures { CutLaw }
{}

// The bytes that came in stand in the buffer one after the other, and nothing else changed.
#[tactic(auto, using(blocking_meaning::proofs::Buffers::buffer_law))]
pub fn buffer_law()
    ensures { BufferLaw }
{}

// What `next` names is what a run does next.
#[tactic(auto, using(blocking_meaning::proofs::NextAccesses::next_law))]
pub fn next_law()
    ensures { NextLaw }
{}

// The order in which `check_isr_flags` looks at the flags of an ISR word.

ghost use Rattle.std.specs.Prelude.{◌≡◌, ◌||◌, cond};
ghost use Rattle.registers.specs.Layout.{◌has◌, BERR, ARLO, NACKF, STOPF, TC, TCR, ADDR};
ghost use Rattle.registers.specs.FlagOrder.{taken_as};

use crate::isr::Isr;

// The flag that an ISR word is taken as. `Nothing` is a case like the others, not a missing value: a check makes its access then too, and
// the definitions of a step and of the book have a line for it.
#[derive(Clone, Copy, Debug, PartialEq, Eq)]
pub enum Flag {
    Berr,
    Arlo,
    Nackf,
    Txis,
    Rxne,
    Stopf,
    Tc,
    Tcr,
    Addr,
    Nothing,
}

// One of the flags that are looked at first: one test of the word.
fn any_fault(isr: u32) -> bool
    ensures { result ≡ ((isr has BERR || isr has ARLO) || isr has NACKF) }
{
    Isr::BERR.is_set(isr) | Isr::ARLO.is_set(isr) | Isr::NACKF.is_set(isr)
}

// Which of them.
fn first_fault(isr: u32) -> Flag
    ensures { result ≡ cond (isr has BERR) Flag.Berr (cond (isr has ARLO) Flag.Arlo Flag.Nackf) }
{
    if Isr::BERR.is_set(isr) {
        return Flag::Berr;
    }
    if Isr::ARLO.is_set(isr) {
        return Flag::Arlo;
    }
    Flag::Nackf
}

// One of the flags that are looked at last.
fn any_late(isr: u32) -> bool
    ensures { result ≡ (((isr has STOPF || isr has TC) || isr has TCR) || isr has ADDR) }
{
    Isr::STOPF.is_set(isr) | Isr::TC.is_set(isr) | Isr::TCR.is_set(isr) | Isr::ADDR.is_set(isr)
}

// Which of them.
fn first_late(isr: u32) -> Flag
    ensures { result ≡ cond (isr has STOPF) Flag.Stopf (cond (isr has TC) Flag.Tc (cond (isr has TCR) Flag.Tcr Flag.Addr)) }
{
    if Isr::STOPF.is_set(isr) {
        return Flag::Stopf;
    }
    if Isr::TC.is_set(isr) {
        return Flag::Tc;
    }
    if Isr::TCR.is_set(isr) {
        return Flag::Tcr;
    }
    Flag::Addr
}

// The first set flag, in the order of `check_isr_flags`.
#[tactic(auto, using(crate::proofs::Groups::grouped))]
pub fn taken_as(isr: u32) -> Flag
    ensures { result ≡ taken_as isr }
{
    if any_fault(isr) {
        return first_fault(isr);
    }
    if Isr::TXIS.is_set(isr) {
        return Flag::Txis;
    }
    if Isr::RXNE.is_set(isr) {
        return Flag::Rxne;
    }
    if any_late(isr) {
        return first_late(isr);
    }
    Flag::Nothing
}

// The access that a parked call wants next, as C's three numbers.

ghost use Rattle.std.specs.Prelude.{◌≡◌};
ghost use Rattle.c_numbers.specs.Next.{next_numbers, NamesFirst};

use parked::next_access::Next;
use parked::phases::End;

// A call that seven numbers hold, resumed with room and not answered 11, makes first the access that was named.
#[tactic(auto, using(crate::proofs::First::names_first))]
pub fn names_first()
    ensures { NamesFirst }
{}

// The register's number is taken modulo 0x100, which takes the 0x100 of a write away.
pub fn store_next(next: Result<Next, End>, numbers: &mut [u64; 3])
    ensures { numbers.new ≡ next_numbers next }
{
    *numbers = match next {
        Err(_) => [0; 3],
        Ok(Next::Read { number, .. }) => [1, (number % 0x100) as u64, 0],
        Ok(Next::Write { number, word }) => [2, (number % 0x100) as u64, word as u64],
    };
}

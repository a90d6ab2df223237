// The sixteen registers that a take's records take from and put to.
ghost use Rattle.std.specs.Prelude.{◌≡◌};
ghost use Rattle.common.specs.Numbers.{number_in};
ghost use Rattle.heap.specs.Registers.{registers_at_first, put_to, put_in};

use common::Refusal;

// How many there are.
pub const COUNT: usize = 16;

#[repr(C)]
#[derive(Clone, Copy)]
pub struct Registers {
    pub values: [u32; COUNT],
}

pub fn at_first() -> Registers
    ensures { result.values ≡ registers_at_first }
{
    Registers { values: [0; COUNT] }
}

// Puts v in register d of a lent struct. Refused 7 where there is no such register, and nothing is changed.
#[tactic(auto, unfolding(crate::specs::Registers::put_in))]
pub fn put(registers: &mut Registers, d: u8, v: u32) -> Result<(), Refusal>
    ensures { put_to (number_in result) registers.new.values ≡ put_in d v registers.old.values }
{
    let place = usize::from(d);
    if COUNT <= place {
        return Err(Refusal::NoRegister);
    }
    registers.values[place] = v;
    Ok(())
}

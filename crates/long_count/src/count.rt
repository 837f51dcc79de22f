//! A count of any length.

ghost use Rattle.std.specs.Prelude.{◌≡◌, ◌+◌, ◌*◌, IfOk};
ghost use Rattle.long_count.specs.Texts.{decimal_of};

use crate::digits::{glyphs, push_number, significant, with_times};
use std::alloc::Global;
use std::marker::Model;
use sys_abi::memory::NoMemory;

/// A count of any length.
#[derive(Debug, Drop)]
pub struct LongCount {
    /// Its decimal digits, the lowest first. Behind the highest there may be zeros.
    digits: Vec<u8>,
}

impl Model for LongCount {
    ghost use Rattle.std.specs.Prelude.{ℕ};
    ghost use Rattle.long_count.specs.Digits.{AreDigits, value};

    ghost Value = { ℕ };

    ghost view = { λ c. value c.digits.items };

    ghost invariant = { λ c. AreDigits c.digits.items };
}

impl LongCount {
    /// None.
    pub fn zero(alloc: Global) -> LongCount
        ensures { result ≡ 0 }
    {
        LongCount {
            digits: Vec::new(alloc),
        }
    }

    /// So many. Fails for want of memory alone.
    pub fn of(alloc: Global, number: u64) -> Result<LongCount, NoMemory>
        ensures { IfOk result (λ count. count ≡ number) }
    {
        let mut digits = Vec::new(alloc);
        push_number(&mut digits, u128::from(number))?;
        Ok(LongCount { digits })
    }

    /// The sum with another one. Fails for want of memory alone.
    pub fn plus(&self, alloc: Global, other: &LongCount) -> Result<LongCount, NoMemory>
        ensures { IfOk result (λ sum. sum ≡ self.now + other.now) }
    {
        self.plus_times(alloc, other, 1)
    }

    /// The sum with so many times another one. Fails for want of memory alone.
    pub fn plus_times(
        &self,
        alloc: Global,
        other: &LongCount,
        times: u64,
    ) -> Result<LongCount, NoMemory>
        ensures { IfOk result (λ sum. sum ≡ self.now + other.now * times) }
    {
        let digits = with_times(
            alloc,
            self.digits.as_slice(),
            other.digits.as_slice(),
            times,
        )?;
        Ok(LongCount { digits })
    }

    /// Its decimal digits as text, without zeros before them; `0` of none. Fails for want of memory alone.
    #[tactic(auto, using(crate::proofs::Written::zero_text, crate::proofs::Written::some_text))]
    pub fn text(&self, alloc: Global) -> Result<Vec<u8>, NoMemory>
        ensures { IfOk result (λ text. text.items ≡ decimal_of self.now) }
    {
        let count = significant(self.digits.as_slice());
        if count == 0 {
            return Ok(Vec::from_slice(alloc, b"0")?);
        }
        let mut text = glyphs(alloc, &self.digits[..count])?;
        text.reverse();
        Ok(text)
    }
}

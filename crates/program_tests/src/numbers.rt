// Lists of numbers.

use nvm_base::Words;
use std::alloc::{AllocError, Global};

/// A list of one number, as that of the call that is to fail: 0 names none.
pub fn only(alloc: Global, number: u64) -> Result<Words, AllocError> {
    let mut numbers = Words::new(alloc);
    numbers.push(number)?;
    Ok(numbers)
}

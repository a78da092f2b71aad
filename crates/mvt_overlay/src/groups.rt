//! Numbers that are joined into groups.

use std::alloc::{AllocError, Global};

/// Numbers from 0 on, each in one group.
#[derive(Drop)]
pub struct Groups {
    /// Of each number one of its group that is no greater; of the least one itself.
    toward_least: Vec<u32>,
}

impl Groups {
    /// So many numbers, each in a group of its own.
    pub(crate) fn new(alloc: Global, count: usize) -> Result<Groups, AllocError> {
        let mut toward_least = Vec::with_capacity(alloc, count)?;
        for number in 0..count {
            toward_least.push(u32::try_from(number).unwrap_or(u32::MAX))?;
        }
        Ok(Groups { toward_least })
    }

    /// How many numbers there are.
    pub(crate) fn count(&self) -> usize {
        self.toward_least.len()
    }

    /// Adds the next number, in a group of its own, and returns it. The greatest number of 32 bits
    /// stands for all that have more.
    pub(crate) fn add(&mut self) -> Result<u32, AllocError> {
        let number = u32::try_from(self.toward_least.len()).unwrap_or(u32::MAX);
        self.toward_least.push(number)?;
        Ok(number)
    }

    /// Makes one group of those of two numbers. None where there is no such number.
    pub fn join(&mut self, one: u32, other: u32) -> Option<()> {
        let one = self.least(one)?;
        let other = self.least(other)?;
        let greater = self.toward_least.get_mut(one.max(other) as usize)?;
        *greater = one.min(other);
        Some(())
    }

    /// The least number of the group of this one, to which the way is made shorter.
    pub fn least(&mut self, number: u32) -> Option<u32> {
        let mut at = number;
        for _ in 0..self.toward_least.len() {
            let next = *self.toward_least.get(at as usize)?;
            if next == at {
                return Some(at);
            }
            let further = *self.toward_least.get(next as usize)?;
            let place = self.toward_least.get_mut(at as usize)?;
            *place = further;
            at = further;
        }
        None
    }
}

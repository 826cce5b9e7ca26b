//! The values of a sweep: each statement that has several makes the rest of the script run once for each.
use relmove_statements::Fault;
use std::alloc::{AllocError, Global};

/// A value of a statement that has several.
#[derive(Drop)]
pub struct Slot {
    pub value: u32,
    /// Whether a value comes after this one.
    pub has_next: bool,
    /// Whether the value is a call that was looked for, and was found, or one that isn't passed over.
    pub is_found: bool,
    /// Whether it was found right now.
    pub is_new: bool,
    /// What was on the disk when the value was the one before.
    pub names: String,
}

/// The values of the statements that have several, in their order.
#[derive(Drop)]
pub struct Sweep {
    slots: Vec<Slot>,
    // How many of them were used so far.
    used: usize,
}

impl Sweep {
    /// No values.
    pub fn new(alloc: Global) -> Sweep {
        Sweep {
            slots: Vec::new(alloc),
            used: 0,
        }
    }

    /// Begins the script anew, with the next values. Returns whether there are any.
    pub fn advance(&mut self) -> bool {
        self.slots.truncate(self.used);
        self.used = 0;
        for _ in 0..self.slots.len() {
            let Some(slot) = self.slots.last_mut() else {
                return false;
            };
            if slot.is_new {
                slot.is_new = false;
                return true;
            }
            if slot.has_next {
                slot.value = slot.value.saturating_add(1);
                slot.is_found = false;
                return true;
            }
            self.slots.pop();
        }
        false
    }

    /// The place of the next statement that has several values.
    pub fn take(&mut self, alloc: Global, first: u32) -> Result<usize, Fault> {
        let index = self.used;
        self.used = index.saturating_add(1);
        if index >= self.slots.len() {
            self.slots.push(Slot {
                value: first,
                has_next: false,
                is_found: false,
                is_new: false,
                names: String::new(alloc),
            })?;
        }
        let slot = self.slot(index)?;
        slot.has_next = false;
        Ok(index)
    }

    /// What is at a place.
    pub fn slot(&mut self, index: usize) -> Result<&mut Slot, Fault> {
        match self.slots.get_mut(index) {
            Some(slot) => Ok(slot),
            None => Err(Fault::Wrong("no such value")),
        }
    }

    /// One of so many values, from 0 on.
    pub fn choose(&mut self, alloc: Global, count: usize) -> Result<usize, Fault> {
        if count <= 1 {
            return Ok(0);
        }
        let index = self.take(alloc, 0)?;
        let slot = self.slot(index)?;
        let value = slot.value as usize;
        slot.has_next = value.saturating_add(1) < count;
        Ok(value)
    }

    /// The values, or `None` if no statement has several.
    pub fn words(&self, alloc: Global) -> Result<Option<String>, AllocError> {
        if self.slots.is_empty() {
            return Ok(None);
        }
        let mut words = String::from_str(alloc, "at")?;
        for slot in &self.slots {
            let value = slot.value;
            words.push_str(format!(in alloc; " {value}")?.as_str())?;
        }
        Ok(Some(words))
    }
}

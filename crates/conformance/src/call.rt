//! The call that a line names.

use crate::refusal::NoAnswer;
use std::alloc::{AllocError, Global};

/// A command and its arguments.
#[derive(Drop)]
pub struct Call<'a> {
    pub command: &'a str,
    arguments: Vec<&'a str>,
}

impl<'a> Call<'a> {
    /// Cuts a line at its tabs.
    pub fn parse(alloc: Global, line: &'a str) -> Result<Call<'a>, AllocError> {
        let mut fields = line.split('\t');
        let command = fields.next().unwrap_or("");
        let arguments = fields.collect(alloc)?;
        Ok(Call { command, arguments })
    }

    /// The argument, if there is just one.
    pub fn one(&self) -> Result<&'a str, NoAnswer> {
        match self.arguments.as_slice() {
            [only] => Ok(*only),
            _ => Err(NoAnswer::WrongFieldCount),
        }
    }

    /// The arguments, if there are just two.
    pub fn two(&self) -> Result<(&'a str, &'a str), NoAnswer> {
        match self.arguments.as_slice() {
            [first, second] => Ok((*first, *second)),
            _ => Err(NoAnswer::WrongFieldCount),
        }
    }

    /// The first argument and those after it, if there is one.
    pub fn one_and_more(&self) -> Result<(&'a str, &[&'a str]), NoAnswer> {
        match self.arguments.split_first() {
            Some((first, more)) => Ok((*first, more)),
            None => Err(NoAnswer::WrongFieldCount),
        }
    }

    /// All arguments.
    pub fn all(&self) -> &[&'a str] {
        &self.arguments
    }
}

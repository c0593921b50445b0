//! The arguments that a program is given, its name first.

use std::env::{Env, FillError};

#[derive(Drop)]
pub struct Arguments<'a> {
    pub given: &'a [&'a [u8]],
}

impl<'a> Env for Arguments<'a> {
    fn arg(&self, i: usize, buf: &mut [u8]) -> Result<usize, FillError> {
        let Some(argument) = self.given.get(i) else {
            return Err(FillError::NotPresent);
        };
        if argument.len() > buf.len() {
            return Err(FillError::TooLong);
        }
        buf[..argument.len()].copy_from_slice(argument);
        Ok(argument.len())
    }

    fn var(&self, _name: &str, _buf: &mut [u8]) -> Result<usize, FillError> {
        Err(FillError::NotPresent)
    }

    fn var_at(&self, _i: usize, _buf: &mut [u8]) -> Result<usize, FillError> {
        Err(FillError::NotPresent)
    }
}

//! The braces and brackets that are open, and the units of the numbers in them.
ghost use Rattle.std.specs.Prelude.{◌≡◌, [], Some, None, IfErr, OnOk, OnErr, IsTrue, ◌↔◌};
ghost use Rattle.std.specs.Bool.{OnTrue, OnFalse};
ghost use Rattle.decimal_import.specs.Conversion.{nested, ok_or, Refuses};
ghost use Rattle.decimal_import.specs.Token.{cut};
ghost use Rattle.decimal_import.specs.View.{token_of};
ghost use Rattle.decimal_import.specs.Nesting.{unit_here, opened, closed, under_key, unit_of_key, is_among, time_keys, energy_keys};

use crate::fault::ImportFault;
use crate::token::{Bracket, Token, is_colon_next};
use std::alloc::{AllocError, Global};
use std::marker::Model;

/// What numbers under a key measure.
#[derive(Clone, Copy)]
pub(crate) enum Unit {
    Time,
    Energy,
}

/// An open brace or bracket, and the unit of its current key.
#[derive(Clone, Copy)]
pub(crate) struct Open {
    bracket: Bracket,
    unit: Option<Unit>,
}

/// The open braces and brackets. Contracts see a list with the innermost first.
#[derive(Drop)]
pub(crate) struct Nesting {
    opens: Vec<Open>,
}

impl Model for Nesting {
    ghost use Rattle.std.specs.Prelude.{List, reverse};
    ghost use Rattle.decimal_import.specs.declared.nesting.Open.{Open};

    ghost Value = { List Open };

    ghost view = { λ n. reverse n.opens.items };
}

impl Nesting {
    pub(crate) fn new(alloc: Global) -> Self
        ensures { result ≡ [] }
    {
        Nesting {
            opens: Vec::new(alloc),
        }
    }

    pub(crate) fn is_empty(&self) -> bool
        ensures { IsTrue result ↔ (self.now ≡ []) }
    {
        self.opens.is_empty()
    }

    /// The unit of the current key of the innermost.
    pub(crate) fn unit(&self) -> Option<Unit>
        ensures { result ≡ unit_here self.now }
    {
        match self.opens.last() {
            Some(open) => open.unit,
            None => None,
        }
    }

    /// Opens a brace or a bracket.
    pub(crate) fn open(&mut self, bracket: Bracket) -> Result<(), AllocError>
        ensures ok { OnOk result (self.new ≡ opened bracket self.old) }
        ensures err { OnErr result (self.new ≡ self.old) }
    {
        let unit = match bracket {
            Bracket::Brace => None,
            Bracket::Square => self.unit(),
        };
        self.opens.push(Open { bracket, unit })?;
        Ok(())
    }

    /// Closes the innermost, if it is of this kind.
    pub(crate) fn close(&mut self, bracket: Bracket) -> bool
        ensures closed { OnTrue result (closed bracket self.old ≡ Some self.new) }
        ensures unmatched { OnFalse result (closed bracket self.old ≡ None) }
    {
        match self.opens.pop() {
            Some(open) => open.bracket == bracket,
            None => false,
        }
    }

    /// Opens, closes or takes a key, as this token says that stands at this place, with these bytes
    /// behind it.
    pub(crate) fn pass(
        &mut self,
        token: &Token<'_>,
        rest: &[u8],
        at: usize,
    ) -> Result<(), ImportFault>
        ensures ok { OnOk result (nested self.old (token_of token.now) (cut rest.now).0
            ≡ Some self.new) }
        ensures fault { IfErr result (λ fault.
            Refuses fault (ok_or (nested self.old (token_of token.now) (cut rest.now).0)
            (ImportFault.Token at))) }
    {
        match token {
            Token::Opening(bracket) => match self.open(*bracket) {
                Ok(()) => Ok(()),
                Err(AllocError) => Err(ImportFault::Memory),
            },
            Token::Closing(bracket) => {
                if self.close(*bracket) {
                    Ok(())
                } else {
                    Err(ImportFault::Token { at })
                }
            }
            Token::Text(key) => {
                if is_colon_next(rest) {
                    self.set_key(key);
                }
                Ok(())
            }
            _ => Ok(()),
        }
    }

    /// Sets the current key of the innermost.
    pub(crate) fn set_key(&mut self, key: &[u8])
        ensures { self.new ≡ under_key key.now self.old }
    {
        let count = self.opens.len();
        if count > 0 {
            self.opens[count - 1].unit = unit_of(key);
        }
    }
}

/// The unit of the numbers under a key, if they have one.
fn unit_of(key: &[u8]) -> Option<Unit>
    ensures { result ≡ unit_of_key key.now }
{
    if is_time_key(key) {
        Some(Unit::Time)
    } else if is_energy_key(key) {
        Some(Unit::Energy)
    } else {
        None
    }
}

fn is_time_key(key: &[u8]) -> bool
    ensures { result ≡ is_among key.now time_keys }
{
    key == b"time_matrix".as_slice()
        || key == b"process_times".as_slice()
        || key == b"time".as_slice()
        || key == b"t_max".as_slice()
        || key == b"max_t".as_slice()
        || key == b"plug_time".as_slice()
}

fn is_energy_key(key: &[u8]) -> bool
    ensures { result ≡ is_among key.now energy_keys }
{
    key == b"energy_matrix".as_slice()
        || key == b"max_q".as_slice()
        || key == b"charge".as_slice()
        || key == b"min_q".as_slice()
        || key == b"home_q".as_slice()
}

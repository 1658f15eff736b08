// The fields of a line, one after another, with single spaces between them.
ghost use Rattle.std.specs.Prelude.{◌≡◌, ◌↔◌, IsOk};
ghost use Rattle.std.specs.Fn.{FnOnceReturnsAt};
ghost use Rattle.std.specs.Option.{option_map};
ghost use Rattle.strip_text.specs.Fields.{FirstField, NextSays, Writes, ReadsFloat};

use crate::fault::{Choices, FieldCause, LineCause};
use crate::numbers::{Whole, read_float, read_number};

/// What is left of a line's fields, and how many were asked for.
#[derive(Clone, Copy)]
pub(crate) struct Fields<'a> {
    left: Option<&'a str>,
    asked: usize,
}

impl<'a> Fields<'a> {
    pub fn of(line: &'a str) -> Fields<'a> {
        Fields {
            left: Some(line),
            asked: 0,
        }
    }

    /// The next field, if there is one: what stands before the next space.
    pub fn next_field(&mut self) -> Option<&'a str>
        ensures { FirstField (option_map (λ x. x.now) self.old.left) (option_map (λ x. x.now) result) (option_map (λ x. x.now) self.new.left) }
    {
        self.asked = self.asked.saturating_add(1);
        let left = self.left?;
        match left.split_once(' ') {
            Some((field, rest)) => {
                self.left = Some(rest);
                Some(field)
            }
            None => {
                self.left = None;
                Some(left)
            }
        }
    }

    /// All that is left, with its spaces.
    pub fn rest(&self) -> &'a str {
        self.left.unwrap_or("")
    }

    /// What is said of the field last asked for.
    pub fn fault(&self, cause: FieldCause) -> LineCause {
        LineCause::Field {
            field: self.asked,
            cause,
        }
    }

    /// What the next field says to `read`. Where it says nothing, or there is none, that is a fault of this cause.
    pub fn read<T, F: FnOnce(&'a str) -> Option<T>>(
        &mut self,
        read: F,
        cause: FieldCause,
    ) -> Result<T, LineCause>
        requires { F.IsAlwaysCallable read }
        ensures { NextSays (λ f r. FnOnceReturnsAt F.FnOnce read f r) (option_map (λ x. x.now) self.old.left) result (option_map (λ x. x.now) self.new.left) }
    {
        let said = self.next_field().and_then(read);
        said.ok_or(self.fault(cause))
    }

    /// A whole number of the type.
    pub fn number<N: Whole>(&mut self) -> Result<N, LineCause>
        ensures { NextSays (λ f r. Writes N.MOST f (option_map N.number_of r)) (option_map (λ x. x.now) self.old.left) result (option_map (λ x. x.now) self.new.left) }
    {
        let cause = FieldCause::NoNumber { most: N::MOST };
        let number = self.read(read_number, cause)?;
        N::try_from(number).ok().ok_or(self.fault(cause))
    }

    pub fn float(&mut self) -> Result<f32, LineCause>
        ensures { NextSays ReadsFloat (option_map (λ x. x.now) self.old.left) result (option_map (λ x. x.now) self.new.left) }
    {
        self.read(read_float, FieldCause::NoFloat)
    }

    /// One of the words that may stand there.
    pub fn choice<T, F: FnOnce(&'a str) -> Option<T>>(
        &mut self,
        choices: Choices,
        read: F,
    ) -> Result<T, LineCause>
        requires { F.IsAlwaysCallable read }
        ensures { NextSays (λ f r. FnOnceReturnsAt F.FnOnce read f r) (option_map (λ x. x.now) self.old.left) result (option_map (λ x. x.now) self.new.left) }
    {
        self.read(read, FieldCause::NoChoice(choices))
    }

    /// What `read` reads, or `-` for none.
    pub fn or_none<T, F: FnOnce(&mut Fields<'a>) -> Result<T, LineCause>>(
        &mut self,
        read: F,
    ) -> Result<Option<T>, LineCause>
        requires { F.IsAlwaysCallable read }
    {
        let mut ahead = *self;
        if ahead.next_field() == Some("-") {
            *self = ahead;
            return Ok(None);
        }
        Ok(Some(read(self)?))
    }

    /// That no field is left.
    pub fn end(&mut self) -> Result<(), LineCause>
        ensures { IsOk result ↔ (option_map (λ x. x.now) self.old.left ≡ None) }
    {
        match self.next_field() {
            Some(_) => Err(self.fault(FieldCause::GoesOn)),
            None => Ok(()),
        }
    }
}

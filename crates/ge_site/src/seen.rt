//! What a walk through groups has met.

ghost use Rattle.std.specs.Prelude.{◌≡◌, OnOk};
ghost use Rattle.ge_model_rows.specs.Pieces.{is_one_of};
ghost use Rattle.ge_model_rows.specs.Groups.{before_walk, meets_host, meets_group, meets_missing, meets_cycle};

use crate::names::Names;
use ge_rows::Text;
use std::alloc::{AllocError, Global};
use std::marker::Model;

/// The hosts and the groups that were met, the first group that is missing, and the first that reaches itself.
/// Contracts see the `Walk` of the model.
#[derive(Drop)]
pub(crate) struct Seen<'a> {
    pub(crate) found: Names<'a>,
    pub(crate) passed: Names<'a>,
    pub(crate) absent: Option<&'a Text>,
    pub(crate) circular: Option<&'a Text>,
}

impl<'a> Model for Seen<'a> {
    ghost use Rattle.std.specs.Option.{option_map};
    ghost use Rattle.ge_model_rows.specs.Groups.{Walk};

    ghost Value = { Walk };

    ghost view = { λ s. record {
      hosts = s.found;
      groups = s.passed;
      missing = option_map (λ name. name.now) s.absent;
      cycle = option_map (λ name. name.now) s.circular;
    } };
}

impl<'a> Seen<'a> {
    pub(crate) fn new(alloc: Global) -> Seen<'a>
        ensures { result ≡ before_walk }
    {
        Seen {
            found: Names::new(alloc),
            passed: Names::new(alloc),
            absent: None,
            circular: None,
        }
    }

    pub(crate) fn has_group(&self, name: &Text) -> bool
        ensures { result ≡ is_one_of name.now self.now.groups }
    {
        self.passed.has(name.bytes())
    }

    pub(crate) fn add_host(&mut self, host: &'a Text) -> Result<(), AllocError>
        ensures { OnOk result (self.new ≡ meets_host self.old host.now) }
    {
        self.found.add(host.bytes())
    }

    pub(crate) fn add_group(&mut self, name: &'a Text) -> Result<(), AllocError>
        ensures { OnOk result (self.new ≡ meets_group self.old name.now) }
    {
        self.passed.add(name.bytes())
    }

    /// Notes a group that is missing, unless one was before.
    pub(crate) fn note_missing(&mut self, name: &'a Text)
        ensures { self.new ≡ meets_missing self.old name.now }
    {
        if self.absent.is_none() {
            self.absent = Some(name);
        }
    }

    /// Notes a group that reaches itself, unless one did before.
    pub(crate) fn note_cycle(&mut self, name: &'a Text)
        ensures { self.new ≡ meets_cycle self.old name.now }
    {
        if self.circular.is_none() {
            self.circular = Some(name);
        }
    }
}

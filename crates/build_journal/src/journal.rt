//! The stack of the operations that a build can still undo.
ghost use Rattle.std.specs.Prelude.{◌≡◌, ◌≤◌, [], length, drop, nat_le, IfOk, IfSome, option_map, true};
ghost use Rattle.std.specs.List.{last_or};
ghost use Rattle.realm_model.specs.Act.{is_paired};
ghost use Rattle.realm_model.specs.Stack.{pushed};

use realm_model::{Act, JOURNAL_ROOM};
use std::alloc::{AllocError, Global};
use std::marker::Model;

/// A stack of a build's open operations, which can still be undone. The newest is last. All memory of a journal is
/// taken when the journal is built.
#[derive(Drop)]
pub struct Journal {
    entries: Vec<Act>,
}

impl Model for Journal {
    ghost use Rattle.std.specs.Prelude.{◌≡◌, ◌≤◌, List, vec_capacity, vec_len, true};
    ghost use Rattle.realm_model.specs.declared.act.Act.{Act};
    ghost use Rattle.build_journal.specs.Stack.{are_paired};

    ghost Value = { List Act };

    ghost view = { λ j. j.entries.items };

    ghost invariant = { λ j. (512 ≤ vec_capacity j.entries) × (vec_len j.entries ≤ 512) × (are_paired j.entries.items ≡ true) };
}

impl Journal {
    /// Creates an empty journal.
    pub fn build(alloc: Global) -> Result<Journal, AllocError>
        ensures { IfOk result (λ j. j ≡ []) }
    {
        let entries = Vec::with_capacity(alloc, JOURNAL_ROOM as usize)?;
        Ok(Journal { entries })
    }

    pub fn len(&self) -> u16
        ensures value { result ≡ length self.now }
        ensures at_most { result ≤ 512 }
    {
        self.entries.len() as u16
    }

    /// Returns whether at least `count` operations can still be undone. A build can go back to a mark of `count`
    /// operations exactly then.
    pub fn has(&self, count: u16) -> bool
        ensures { result ≡ nat_le count (length self.now) }
    {
        count <= self.entries.len() as u16
    }

    /// Pushes an operation that has a reverse, or pops the newest operation if the given one is a reverse. Any other
    /// operation changes nothing.
    pub fn follow(&mut self, act: &Act)
        requires { length (pushed self.old act.now) ≤ 512 }
        ensures { self.new ≡ pushed self.old act.now }
    {
        if act.is_paired() {
            self.entries.push_reserved(act.clone());
        } else if act.is_reverse() {
            self.entries.pop();
        }
    }

    /// Returns the newest operation that the build can still undo, if there is one.
    pub fn newest(&self) -> Option<&Act>
        ensures value { option_map (λ a. a.now) result ≡ last_or None (self.now) }
        ensures paired { IfSome result (λ a. is_paired a.now ≡ true) }
    {
        self.entries.last()
    }

    /// Returns the operations that the build can still undo, except the oldest `count`. The newest is last.
    pub fn above(&self, count: u16) -> &[Act]
        requires { count ≤ length self.now }
        ensures { result.now ≡ drop count self.now }
    {
        &self.entries.as_slice()[count as usize..]
    }
}

//! Each build's stack of leased pages.
ghost use Rattle.std.specs.Prelude.{◌≡◌, ◌+◌, ◌^◌, ◌<◌, ◌≤◌, [], length, replicate, IfOk, slice_get, vec_len, vec_capacity};
ghost use Rattle.build_journal.specs.Stacks.{stack_of, with_stack, pushed, popped};

use granule_addr::{BuildId, Gran, Order};
use std::alloc::{AllocError, Global};
use std::marker::Model;

/// A stack of leased pages for each build. The pages are in the order in which the build took them.
#[derive(Drop)]
pub struct Leases {
    stacks: Vec<Vec<Gran>>,
    room: u16,
}

impl Model for Leases {
    ghost use Rattle.build_journal.specs.Stacks.{Stacks, contents, IsKept};

    ghost Value = { Stacks };

    ghost view = { λ leases. record { stacks = contents leases.stacks.items; room = leases.room } };

    ghost invariant = { λ leases. IsKept leases.room leases.stacks.items };
}

impl Leases {
    /// Creates an empty stack for each of `builds` builds. Each stack has capacity for `pages` pages.
    pub fn build(alloc: Global, builds: u8, pages: u16) -> Result<Leases, AllocError>
        requires { pages ≤ 4096 }
        ensures { IfOk result (λ leases.
            leases ≡ record { stacks = replicate builds []; room = pages }) }
    {
        let mut stacks = Vec::with_capacity(alloc, builds as usize)?;
        for _i in 0..builds {
            stacks.push(Vec::with_capacity(alloc, pages as usize)?)?;
        }
        Ok(Leases {
            stacks,
            room: pages,
        })
    }

    /// Appends the granules of a block, from the lowest to the highest, to a build's stack. The build is the one that
    /// has taken the block.
    pub fn push_block(&mut self, build: BuildId, first: Gran, order: Order)
        requires there { build < length self.old.stacks }
        requires room { length (stack_of self.old build) + 2 ^ order ≤ self.old.room }
        requires machine { first + 2 ^ order ≤ 4096 }
        ensures { self.new
            ≡ with_stack self.old build (pushed (stack_of self.old build) first order) }
    {
        push_run(&mut self.stacks[build.number() as usize], first, order);
    }

    /// Removes the last 2^`order` pages from a build's stack. They are as many as a block of order `order` has.
    pub fn pop_block(&mut self, build: BuildId, order: Order)
        requires there { build < length self.old.stacks }
        requires enough { 2 ^ order ≤ length (stack_of self.old build) }
        ensures { self.new ≡ with_stack self.old build (popped (stack_of self.old build) order) }
    {
        pop_run(&mut self.stacks[build.number() as usize], order);
    }

    /// Returns the granule that is page number `k` of a build, or `None` if the build has no such page.
    pub fn page(&self, build: BuildId, k: u16) -> Option<Gran>
        requires { build < length self.now.stacks }
        ensures { result ≡ slice_get (stack_of self.now build) k }
    {
        let stack = &self.stacks[build.number() as usize];
        stack.get(k as usize).copied()
    }

    /// Returns the number of pages that a build leases.
    pub fn count(&self, build: BuildId) -> u16
        requires { build < length self.now.stacks }
        ensures value { result ≡ length (stack_of self.now build) }
        ensures fits { result ≤ self.now.room }
    {
        self.stacks[build.number() as usize].len() as u16
    }
}

// Appends the granules of a block to a stack that has capacity for them.
pub fn push_run(stack: &mut Vec<Gran>, first: Gran, order: Order)
    requires room { vec_len stack.old + 2 ^ order ≤ vec_capacity stack.old }
    requires machine { first + 2 ^ order ≤ 4096 }
    ensures pushed { stack.new.items ≡ pushed stack.old.items first order }
    ensures memory { vec_capacity stack.old ≤ vec_capacity stack.new }
{
    let start = stack.len();
    stack.resize(start + order.size() as usize, first).unwrap();
    let number = first.number();
    // (written by index and not pushed, so that no write depends on the length that the previous write stored)
    for k in 0..order.size() {
        stack[start + k as usize] = Gran::from_number(number + k);
    }
}

// Removes the granules of a block from the end of a stack. Its memory stays.
pub(crate) fn pop_run(stack: &mut Vec<Gran>, order: Order)
    requires { 2 ^ order ≤ vec_len stack.old }
    ensures popped { stack.new.items ≡ popped stack.old.items order }
    ensures memory { vec_capacity stack.new ≡ vec_capacity stack.old }
{
    stack.truncate(stack.len() - order.size() as usize);
}

//! Files kept in memory, for tests.

ghost use Rattle.std.specs.Prelude.{◌≡◌, ◌<◌, ◌≤◌, ◌↔◌, ◌⊎◌, [], length, take, min, true, false, None, Some, is_some, IsTrue, IsErr, OnOk, OnErr, IfOk, IfSome, IfNone};
ghost use Rattle.gp_base.specs.FaultPlan.{no_failures, failing_also, fails_next, counted};
ghost use Rattle.gp_base.specs.Outside.{MayOpen, IsMissing, contents_of, prepended, IsEndOf, Rose};
ghost use Rattle.gp_base.specs.StoredFiles.{last_put, bytes_at, held_by, Puts};

use crate::fault_plan::FaultPlan;
use crate::files::{Failed, Files};
use std::alloc::{AllocError, Global};
use std::marker::Model;

// A name and what it holds.
#[derive(Drop)]
struct StoredFile {
    name: String,
    bytes: Vec<u8>,
}

impl Model for StoredFile {
    ghost use Rattle.std.specs.Prelude.{string_bytes};
    ghost use Rattle.gp_base.specs.StoredFiles.{FileContents};

    ghost Value = { FileContents };

    ghost view = { λ file. record { name = string_bytes file.name; bytes = file.bytes.items } };
}

// The place of a file among the stored ones, and how many of its bytes were read.
#[derive(Clone, Copy)]
struct Cursor {
    place: usize,
    offset: usize,
}

/// Named contents in memory, which tell what they hold. Calls of `open` and `read` fail where `fail_at` lets them.
#[derive(Drop)]
pub struct MemoryFiles {
    alloc: Global,
    // A name holds the last file that has it, so the place of an open file stays.
    stored: Vec<StoredFile>,
    cursor: Option<Cursor>,
    plan: FaultPlan,
}

impl Model for MemoryFiles {
    ghost use Rattle.gp_base.specs.StoredFiles.{StoredFiles, left_at, IsWithin};
    ghost use Rattle.std.specs.Option.{option_map, ForSome};

    ghost Value = { StoredFiles };

    ghost view = { λ files. record {
      stored = files.stored.items;
      left = option_map (left_at files.stored.items) files.cursor;
      plan = files.plan;
    } };

    ghost invariant = { λ files. ForSome files.cursor (IsWithin files.stored.items) };
}

// The place of the last file with this name.
fn place_of(files: &[StoredFile], name: &str) -> Option<usize>
    ensures within { IfSome result (λ place. place < length files.now) }
    ensures found { IfSome result (λ place. last_put files.now name.now ≡ Some (bytes_at files.now place)) }
    ensures missing { IfNone result (last_put files.now name.now ≡ None) }
{
    files.iter().rposition(|file| file.name.as_str() == name)
}

// Copies as much as fits from the front of `from` into the front of `to`, and answers how many bytes.
fn copy_front(from: &[u8], to: &mut [u8]) -> usize
    ensures count { result ≡ min (length from.now) (length to.old) }
    ensures copied { take result to.new ≡ take result from.now }
{
    let count = from.len().min(to.len());
    to[..count].copy_from_slice(&from[..count]);
    count
}

impl MemoryFiles {
    /// Holds no name, no file is open, and no call fails. Takes no memory.
    pub fn new(alloc: Global) -> MemoryFiles
        ensures { result ≡ record { stored = []; left = None; plan = no_failures } }
    {
        MemoryFiles {
            alloc,
            stored: Vec::new(alloc),
            cursor: None,
            plan: FaultPlan::new(alloc),
        }
    }

    /// Lets the name hold these bytes, in place of earlier ones. What is left of an open file stays. After an
    /// error everything is as it was.
    pub fn put(&mut self, name: &str, bytes: &[u8]) -> Result<(), AllocError>
        ensures ok { OnOk result (Puts self.old self.new name.now bytes.now) }
        ensures err { OnErr result (self.new ≡ self.old) }
    {
        let name = String::from_str(self.alloc, name)?;
        let bytes = Vec::from_slice(self.alloc, bytes)?;
        self.stored.push(StoredFile { name, bytes })?;
        Ok(())
    }

    /// Lets a call of `open` or `read` fail. They are counted together from 0. After an error everything is as
    /// it was.
    pub fn fail_at(&mut self, call: u64) -> Result<(), AllocError>
        ensures ok { OnOk result (self.new ≡ record self.old { plan = failing_also call self.old.plan }) }
        ensures err { OnErr result (self.new ≡ self.old) }
    {
        self.plan.fail_at(call)
    }

    /// How many calls failed because `fail_at` let them. The count stops at 2^64 - 1.
    pub fn faults(&self) -> u64
        ensures { result ≡ self.now.plan.faults }
    {
        self.plan.faults()
    }
}

impl Files for MemoryFiles {
    ghost held = { held_by };

    ghost rest = { λ files. files.left };

    ghost is_open = { λ files. is_some files.left };

    ghost faults = { λ files. files.plan.faults };

    /// Fails exactly where `fail_at` lets the call fail, or where the name wasn't put. Takes no memory.
    fn open(&mut self, name: &str) -> Result<(), Failed>
        ensures opened { OnOk result (is_some self.new.left ≡ true) }
        ensures held_name { OnOk result (MayOpen (held_by self.old) name.now) }
        ensures whole { OnOk result (self.new.left ≡ contents_of (held_by self.old) name.now) }
        ensures closed { OnErr result (is_some self.new.left ≡ false) }
        ensures cause { OnErr result
            (Rose self.old.plan.faults self.new.plan.faults ⊎ IsMissing (held_by self.old) name.now) }
        ensures kept { held_by self.new ≡ held_by self.old }
        ensures count { self.old.plan.faults ≤ self.new.plan.faults }

        // Each call is counted, and a fault where `fail_at` lets it fail.
        ensures fails { IsErr result
            ↔ (IsTrue (fails_next self.old.plan) ⊎ IsMissing (held_by self.old) name.now) }
        ensures counted { self.new.plan ≡ counted (fails_next self.old.plan) self.old.plan }
    {
        self.cursor = None;
        let fails = self.plan.fails_next();
        self.plan.count(fails);
        if fails {
            return Err(Failed);
        }
        let place = place_of(&self.stored, name).ok_or(Failed)?;
        self.cursor = Some(Cursor { place, offset: 0 });
        Ok(())
    }

    /// Fails exactly where `fail_at` lets the call fail. Takes no memory, and fills as much of `buf` as is left.
    fn read(&mut self, buf: &mut [u8]) -> Result<usize, Failed>
        requires open { is_some self.old.left ≡ true }
        requires room { 0 < length buf.old }
        ensures within { IfOk result (λ n. n ≤ length buf.new) }
        ensures moved { IfOk result (λ n. self.old.left ≡ prepended (take n buf.new) self.new.left) }
        ensures end { IfOk result (λ n. IsEndOf self.old.left n) }
        ensures unmoved { OnErr result (self.new.left ≡ self.old.left) }
        ensures cause { OnErr result (Rose self.old.plan.faults self.new.plan.faults) }
        ensures still_open { is_some self.new.left ≡ true }
        ensures kept { held_by self.new ≡ held_by self.old }
        ensures count { self.old.plan.faults ≤ self.new.plan.faults }

        // Each call is counted, and a fault where `fail_at` lets it fail.
        ensures fails { IsErr result ↔ IsTrue (fails_next self.old.plan) }
        ensures fills { IfOk result
            (λ n. IfSome self.old.left (λ rest. n ≡ min (length rest) (length buf.old))) }
        ensures counted { self.new.plan ≡ counted (fails_next self.old.plan) self.old.plan }
    {
        let cursor = self.cursor.unwrap();
        let fails = self.plan.fails_next();
        self.plan.count(fails);
        if fails {
            return Err(Failed);
        }
        let rest = &self.stored[cursor.place].bytes[cursor.offset..];
        let count = copy_front(rest, buf);
        self.cursor = Some(Cursor {
            place: cursor.place,
            offset: cursor.offset + count,
        });
        Ok(count)
    }
}

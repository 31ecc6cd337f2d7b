//! Files in memory, for the hosts that have no others.
ghost use Rattle.std.specs.Prelude.{◌≡◌, ◌≢◌, ℕ, ◌+◌, ◌<◌, ◌≤◌, List, [], ◌++◌, Some, None, length, take, IfSome, IfOk, OnOk, OnErr};
ghost use Rattle.std.specs.Option.{ForSome, option_map};
ghost use Rattle.mp_host.specs.Files.{content_of, content_at, unread};

use mp_logic::{ListOf, NoMemory};
use mp_text::Bytes;
use std::alloc::Global;

#[derive(Drop)]
pub struct NamedFile {
    name: Bytes,
    bytes: Bytes,
}

/// A list of the bytes of a slice.
pub fn copy_of(alloc: Global, bytes: &[u8]) -> Result<Bytes, NoMemory>
    ensures { IfOk result (λ copy. copy ≡ bytes.now) }
{
    let mut copy = Bytes::new(alloc);
    copy.extend(bytes)?;
    Ok(copy)
}

/// Files, and how far the open one was read. Of several files of one name the last one counts, so that a file that is
/// being read stays as it is.
#[derive(Drop)]
pub struct Files {
    list: ListOf<NamedFile>,
    opened: Option<usize>,
    at: usize,
    ghost is_there: { ForSome opened (λ place. place < length list) },
    ghost within: { at ≤ length (content_at list opened) },
}

impl Files {
    pub fn new(alloc: Global) -> Self
        ensures files { (name : List ℕ) → content_of result.list name ≡ None }
        ensures rest { unread result.list result.opened result.at ≡ [] }
    {
        Files {
            list: ListOf::new(alloc),
            opened: None,
            at: 0,
        }
    }

    pub fn put(&mut self, alloc: Global, name: &str, bytes: &[u8]) -> Result<(), NoMemory>
        ensures put { OnOk result (content_of self.new.list name.now ≡ Some bytes.now) }
        ensures others { (other : List ℕ) → other ≢ name.now → content_of self.new.list other ≡ content_of self.old.list other }
        ensures err { OnErr result (self.new.list ≡ self.old.list) }
        ensures rest { unread self.new.list self.new.opened self.new.at ≡ unread self.old.list self.old.opened self.old.at }
    {
        let file = NamedFile {
            name: copy_of(alloc, name.as_bytes())?,
            bytes: copy_of(alloc, bytes)?,
        };
        self.list.push(file)?;
        Ok(())
    }

    /// The place of the file of this name.
    pub fn find(&self, name: &str) -> Option<usize>
        ensures place { IfSome result (λ place. place < length self.now.list) }
        ensures content { option_map (λ place. content_at self.now.list (Some place)) result ≡ content_of self.now.list name.now }
    {
        let mut found = None;
        for (place, file) in self.list.items().iter().enumerate() {
            if file.name.items() == name.as_bytes() {
                found = Some(place);
            }
        }
        found
    }

    /// Opens the file of a place, or an empty one.
    pub fn open(&mut self, place: Option<usize>)
        requires { IfSome place (λ place. place < length self.old.list) }
        ensures list { self.new.list ≡ self.old.list }
        ensures rest { unread self.new.list self.new.opened self.new.at ≡ content_at self.old.list place }
    {
        self.opened = place;
        self.at = 0;
    }

    fn open_content(&self) -> &[u8]
        ensures { result.now ≡ content_at self.now.list self.now.opened }
    {
        match self.opened {
            Some(place) => self.list.items()[place].bytes.items(),
            None => &[],
        }
    }

    /// Moves the next bytes of the open file to the front of a buffer, no more than `chunk`.
    pub fn read(&mut self, buffer: &mut [u8], chunk: usize) -> usize
        requires { 0 < chunk }
        ensures bound { result ≤ length buffer.new }
        ensures chunk { result ≤ chunk }
        ensures bytes { unread self.old.list self.old.opened self.old.at ≡ take result buffer.new ++ unread self.new.list self.new.opened self.new.at }
        ensures end { 0 < length buffer.old → result ≡ 0 → unread self.new.list self.new.opened self.new.at ≡ [] }
        ensures list { self.new.list ≡ self.old.list }
    {
        let rest = &self.open_content()[self.at..];
        let count = rest.len().min(buffer.len()).min(chunk);
        buffer[..count].copy_from_slice(&rest[..count]);
        self.at += count;
        count
    }
}

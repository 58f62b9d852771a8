//! The writer's two types: a value of either is moved on, never copied or let go.

ghost use Rattle.std.specs.Prelude.{◌+◌, ◌≤◌, ◌≡◌, length, if◌then◌else◌, Some, None};
ghost use Rattle.nodes.specs.Limits.{max_bytes, max_document, max_level};
ghost use Rattle.writer.specs.Root.{depth_of, least_depth, end_of_open};
ghost use Rattle.writer.specs.Writer.{fresh, room, written, intact_at, held_at, fault_at};

use crate::fault::WriteFault;
use crate::root::Root;
use nodes::limits::{MAX_BYTES, MAX_DOCUMENT, MAX_LEVEL};
use nodes::refusal::Refusal;
use tapes::command::{BEGIN, CLOSE, END, OPEN, VALUE};

/// A writer outside a document: only begin is possible, and the finished length is known.
pub struct WriterOutside {
    /// How many bytes are written.
    length: u32,
    /// The least number that the next document may have.
    least: u32,
    ghost short: { length ≤ max_bytes },
    ghost next: { least ≤ max_document + 1 },
}

/// A writer inside a document: open, value, close and end are possible.
pub struct WriterInside {
    length: u32,
    least: u32,
    root: Root,
    ghost short: { length ≤ max_bytes },
    ghost next: { least ≤ max_document + 1 },
    ghost open: { least_depth root ≤ depth_of root },
    ghost deep: { depth_of root ≤ max_level },
    ghost written: { end_of_open root ≤ length },
}

/// A refused call that would have passed from one writer to the other: the writer, as it was, and why.
pub struct GivenBack<W> {
    pub writer: W,
    pub fault: WriteFault,
}

/// What the last operand of an open root holds.
const NO_OPEN: u32 = 0xFFFF_FFFF;

/// Writes `new` over the bytes from the place `at` on.
fn put(bytes: &mut [u8], at: usize, new: &[u8])
    requires { at + length new.now ≤ length bytes.old }
    ensures { bytes.new ≡ written at new.now bytes.old }
{
    let end = at + new.len();
    bytes[at..end].copy_from_slice(new);
}

/// Whether so many bytes more pass neither the caller's bytes nor the length that a tape may have.
fn has_room(length: u32, more: u8, bytes: &[u8]) -> bool
    ensures { result ≡ room length more bytes.now }
{
    let after = length as usize + more as usize;
    after <= bytes.len() && after <= MAX_BYTES
}

/// What the last operand of the OPEN of an element holds, if that OPEN is as the writer left it.
fn held(bytes: &[u8], depth: usize, innermost: u32) -> Option<u32>
    requires { innermost + 7 ≤ length bytes.now }
    ensures { result ≡ (if intact_at bytes.now depth innermost then Some (held_at bytes.now innermost) else None) }
{
    let at = innermost as usize;
    let [OPEN, _, _, a3, a2, a1, a0] = &bytes[at..at + 7] else {
        return None;
    };
    let around = u32::from_be_bytes([*a3, *a2, *a1, *a0]);
    let fits = if depth == 1 {
        around == NO_OPEN
    } else {
        around < innermost
    };
    fits.then_some(around)
}

/// The fault of a refusal at a place, which is how many bytes are written.
pub(crate) fn fault_at(place: u32, refusal: Refusal) -> WriteFault
    ensures { result ≡ fault_at place refusal }
{
    WriteFault { refusal, place }
}

/// A writer given back for a refusal at a place.
fn give_back<W>(writer: W, place: u32, refusal: Refusal) -> GivenBack<W>
    ensures { result ≡ record { writer = writer; fault = fault_at place refusal } }
{
    let fault = fault_at(place, refusal);
    GivenBack { writer, fault }
}

impl WriterOutside {
    ghost use Rattle.writer.specs.Views.{out, Begins, Ends};

    /// A writer that has written nothing.
    pub fn fresh() -> WriterOutside
        ensures { out result ≡ fresh }
    {
        WriterOutside {
            length: 0,
            least: 0,
        }
    }

    /// How many bytes the finished documents take.
    pub fn finished_length(&self) -> usize
        ensures { result ≡ (out self.now).length }
    {
        let WriterOutside { length, least: _ } = self;
        *length as usize
    }

    /// Ends the writing, and answers the finished length.
    pub fn finish(self) -> usize
        ensures { result ≡ (out self).length }
    {
        let WriterOutside {
            length: finished,
            least: _,
        } = self;
        finished as usize
    }

    /// Begins a document: refused by its number, and then by want of room.
    pub fn begin(
        self,
        bytes: &mut [u8],
        document: u32,
    ) -> Result<WriterInside, GivenBack<WriterOutside>>
        ensures { Begins bytes.old bytes.new (out self) document result }
    {
        let length = self.length;
        if document > MAX_DOCUMENT || document < self.least {
            return Err(give_back(self, length, Refusal::DocumentOrder));
        }
        if !has_room(length, 5, bytes) {
            return Err(give_back(self, length, Refusal::NoRoom));
        }
        let [d3, d2, d1, d0] = document.to_be_bytes();
        put(bytes, length as usize, &[BEGIN, d3, d2, d1, d0]);
        let WriterOutside { length, least: _ } = self;
        Ok(WriterInside {
            length: length + 5,
            least: document + 1,
            root: Root::ToCome,
        })
    }
}

impl WriterInside {
    ghost use Rattle.writer.specs.Views.{ins, Opens, Values, Closes, Ends};

    /// How many bytes are written so far, of finished documents and of this one.
    pub fn written(&self) -> usize
        ensures { result ≡ (ins self.now).length }
    {
        self.length as usize
    }

    /// Opens an element: the document's root, or in the innermost open one.
    pub fn open(&mut self, bytes: &mut [u8], tag: u16) -> Result<(), WriteFault>
        ensures { Opens bytes.old bytes.new (ins self.old) (ins self.new) tag result }
    {
        let (depth, around) = match self.root {
            Root::ToCome => (0, NO_OPEN),
            Root::Open { depth, innermost } => (depth, innermost),
            Root::Closed => return Err(fault_at(self.length, Refusal::Misplaced)),
        };
        if depth >= MAX_LEVEL {
            return Err(fault_at(self.length, Refusal::TooDeep));
        }
        if !has_room(self.length, 7, bytes) {
            return Err(fault_at(self.length, Refusal::NoRoom));
        }
        let [t1, t0] = tag.to_be_bytes();
        let [a3, a2, a1, a0] = around.to_be_bytes();
        put(bytes, self.written(), &[OPEN, t1, t0, a3, a2, a1, a0]);
        self.root = Root::Open {
            depth: depth + 1,
            innermost: self.length,
        };
        self.length += 7;
        Ok(())
    }

    /// Writes a value into the innermost open element.
    pub fn value(&mut self, bytes: &mut [u8], tag: u16, number: u32) -> Result<(), WriteFault>
        ensures { Values bytes.old bytes.new (ins self.old) (ins self.new) tag number result }
    {
        let Root::Open { depth, .. } = self.root else {
            return Err(fault_at(self.length, Refusal::Misplaced));
        };
        if depth >= MAX_LEVEL {
            return Err(fault_at(self.length, Refusal::TooDeep));
        }
        if !has_room(self.length, 7, bytes) {
            return Err(fault_at(self.length, Refusal::NoRoom));
        }
        let [t1, t0] = tag.to_be_bytes();
        let [n3, n2, n1, n0] = number.to_be_bytes();
        put(bytes, self.written(), &[VALUE, t1, t0, n3, n2, n1, n0]);
        self.length += 7;
        Ok(())
    }

    /// Closes the innermost open element, and gives its OPEN the true CLOSE offset.
    pub fn close(&mut self, bytes: &mut [u8]) -> Result<(), WriteFault>
        ensures { Closes bytes.old bytes.new (ins self.old) (ins self.new) result }
    {
        let Root::Open { depth, innermost } = self.root else {
            return Err(fault_at(self.length, Refusal::Misplaced));
        };
        if !has_room(self.length, 1, bytes) {
            return Err(fault_at(self.length, Refusal::NoRoom));
        }
        let Some(around) = held(bytes, depth, innermost) else {
            return Err(fault_at(self.length, Refusal::BrokenOpen));
        };
        put(bytes, innermost as usize + 3, &self.length.to_be_bytes());
        put(bytes, self.written(), &[CLOSE]);
        self.root = if depth == 1 {
            Root::Closed
        } else {
            Root::Open {
                depth: depth - 1,
                innermost: around,
            }
        };
        self.length += 1;
        Ok(())
    }

    /// Ends the document, whose root must be closed.
    pub fn end(self, bytes: &mut [u8]) -> Result<WriterOutside, GivenBack<WriterInside>>
        ensures { Ends bytes.old bytes.new (ins self) result }
    {
        let length = self.length;
        let Root::Closed = self.root else {
            return Err(give_back(self, length, Refusal::Misplaced));
        };
        if !has_room(length, 1, bytes) {
            return Err(give_back(self, length, Refusal::NoRoom));
        }
        put(bytes, length as usize, &[END]);
        let WriterInside {
            length,
            least,
            root: _,
        } = self;
        Ok(WriterOutside {
            length: length + 1,
            least,
        })
    }

    /// Gives the document up, and answers how many bytes are written; they are no finished tape.
    pub fn abandon(self) -> usize
        ensures { result ≡ (ins self).length }
    {
        let WriterInside {
            length: left,
            least: _,
            root: _,
        } = self;
        left as usize
    }
}

//! A file of sealed pages: looking at it, what was seen, and the pages in it.
ghost use Rattle.std.specs.Prelude.{if◌then◌else◌, ◌==◌, ◌≡◌, ◌≤◌, ◌<◌, ◌+◌, ◌-◌, ◌^◌, ◌↔◌, ℕ, List, [], ◌∷◌, false, true, IsTrue, IsErrOf, None, Some, length, vec_len, vec_capacity, ◌++◌, IsSome, slice_get, slice_index, IfOk, IfErr, IfSome, OnOk, OnErr};
ghost use Rattle.outside_io.specs.Causes.{HasCause, Rose};
ghost use Rattle.page_codec.specs.Bounds.{IsPage, IsParams};
ghost use Rattle.page_codec.specs.Spelling.{spelling_of};
ghost use Rattle.page_codec.specs.declared.page.Page.{Page};
ghost use Rattle.page_file.specs.Files.{IsSealed, ReadsAs, ReadsBeforeOrAfter, file_of};
ghost use Rattle.page_file.specs.Stays.{IsSettled, Leaves, Passes};
ghost use Rattle.page_file.specs.Inner.{IsReadFrom, Explains};
ghost use Rattle.page_file.specs.Notes.{Suits, count_of, end_of, with_page, header_of};

use crate::fault::FileFault;
use crate::filling::fill;
use crate::sealing::{clear_behind, seal_behind};
use outside_io::Disk;
use page_codec::{Page, Params, decode, encode};
use std::alloc::{AllocError, Global};
use std::marker::Model;

/// Notes on a disk that was looked at. The disk is lent to each call, and has to be that one.
#[derive(Drop)]
pub struct PageFile {
    alloc: Global,
    gates: Vec<u64>,
    params: Option<Params>,
    buffer: Vec<u8>,
    ready: bool,
    live: bool,
}

impl Model for PageFile {
    ghost use Rattle.std.specs.Prelude.{IfSome};
    ghost use Rattle.page_codec.specs.Bounds.{IsParams};
    ghost use Rattle.page_file.specs.Notes.{Notes};
    ghost use Rattle.page_file.specs.Inner.{AreGates};

    ghost Value = { Notes };

    ghost view = { λ f. record { gates = f.gates.items; params = f.params; is_ready = f.ready; is_live = f.live } };

    ghost invariant = { λ f. AreGates f.gates.items × IfSome f.params IsParams };
}

// The parameters of a Header.
fn header_of(page: &Page) -> Option<Params>
    ensures { result ≡ header_of page.now }
{
    match page {
        Page::Header(params) => Some(*params),
        _ => None,
    }
}

// The parameters of some pages with one more, of which so many there were.
fn more_params(params: Option<Params>, count: u64, page: &Page) -> Option<Params>
    ensures { result ≡ (if count == 0 then header_of page.now else params) }
{
    if count == 0 {
        return header_of(page);
    }
    params
}

impl PageFile {
    // No page is sealed.
    pub(crate) fn begin(alloc: Global) -> Result<PageFile, AllocError>
        ensures { IfOk result (λ f. f ≡ record { gates = 0 ∷ []; params = None; is_ready = false; is_live = true }) }
    {
        let mut gates = Vec::new(alloc);
        gates.push(0)?;
        Ok(PageFile {
            alloc,
            gates,
            params: None,
            buffer: Vec::new(alloc),
            ready: false,
            live: true,
        })
    }

    // Where reading ended.
    pub(crate) fn end(&self) -> u64
        ensures { result ≡ end_of self.now }
    {
        self.gates[self.gates.len() - 1]
    }

    // Notes a page, whose gate and spelling have so many bytes.
    pub(crate) fn note(&mut self, page: &Page, size: usize) -> Result<(), AllocError>
        requires live { IsTrue self.old.is_live }
        requires page { IsPage page.now }
        requires size { size ≡ 1 + length (spelling_of page.now) }
        requires fits { end_of self.old + size < 2 ^ 64 }
        ensures ok { OnOk result (self.new ≡ with_page self.old page.now) }
        ensures err { OnErr result (self.new ≡ self.old) }
    {
        let end = self.end();
        let params = more_params(self.params, self.count(), page);
        self.gates.push(end + size as u64)?;
        self.params = params;
        Ok(())
    }

    // Keeps the buffer.
    pub(crate) fn keep(&mut self, buffer: Vec<u8>)
        ensures { self.new ≡ self.old }
    {
        self.buffer = buffer;
    }

    /// How many pages are sealed.
    pub fn count(&self) -> u64
        requires { IsTrue self.now.is_live }
        ensures { result ≡ count_of self.now }
    {
        self.gates.len() as u64 - 1
    }

    /// The parameters of page 0; none where no page is sealed or page 0 is no Header. They pass their test, over every disk.
    pub fn params(&self) -> Option<Params>
        requires { IsTrue self.now.is_live }
        ensures params { result ≡ self.now.params }
        ensures tested { IfSome result IsParams }
    {
        self.params
    }

    /// Whether the notes may be used. They may not after a `DiskFault` from `renew` or `seal`; the file is then looked at again.
    pub fn live(&self) -> bool
        ensures { result ≡ self.now.is_live }
    {
        self.live
    }

    /// Page `i`, from 0.
    ///
    /// `DiskFault` only where the disk's count rose. `BadPage(i)` never over a disk that tells its moments; over another it says that what
    /// was read was no page. `Memory`.
    pub fn page<D: Disk>(&mut self, disk: &mut D, i: u64) -> Result<Page, FileFault>
        requires live { IsTrue self.old.is_live }
        requires suits { IfSome (D.trace disk.old) (λ t. Suits self.old t.now.contents) }
        requires within { i < count_of self.old }
        ensures ok { IfOk result (λ page. IfSome (D.trace disk.old) (λ t. (pages : List Page) → IsSealed pages t.now.contents → slice_get pages i ≡ Some page)) }
        ensures is_page { IfOk result IsPage }
        ensures bad_page { (n : ℕ) → IsErrOf result (FileFault.BadPage n) → (n ≡ i) × (D.trace disk.old ≡ None) }
        ensures foreign { (n : ℕ) → ¬ (IsErrOf result (FileFault.Foreign n)) }
        ensures disk_fault_only { IsErrOf result FileFault.DiskFault → Rose (D.faults disk.old) (D.faults disk.new) }
        ensures same { self.new ≡ self.old }
        ensures disk { D.trace disk.new ≡ D.trace disk.old }
        ensures faults { D.faults disk.old ≤ D.faults disk.new }
    {
        let (place, size) = self.span(i);
        self.buffer.clear();
        self.buffer.resize(size, 0)?;
        let Some(page) = read_page(self.alloc, disk, place, &mut self.buffer)? else {
            return Err(FileFault::BadPage(i));
        };
        Ok(page)
    }

    /// Makes the file ready for the next page: what stands behind the sealed pages gives way to one closed gate. It takes no memory.
    ///
    /// `DiskFault` only where the disk's count rose; the file is then not live.
    pub fn renew<D: Disk>(&mut self, disk: &mut D) -> Result<(), FileFault>
        requires live { IsTrue self.old.is_live }
        requires suits { IfSome (D.trace disk.old) (λ t. Suits self.old t.now.contents) }
        ensures ok { OnOk result (self.new ≡ record self.old { is_ready = true }) }
        ensures suits { OnOk result (IfSome (D.trace disk.new) (λ t. Suits self.new t.now.contents)) }
        ensures left { OnOk result (Leaves (λ t bytes. (pages : List Page) → IsSealed pages t.now.contents → bytes ≡ file_of pages) (D.trace disk.old) (D.trace disk.new)) }
        ensures err { OnErr result (self.new ≡ record self.old { is_live = false }) }
        ensures disk_fault { IfErr result (λ e. e ≡ FileFault.DiskFault) }
        ensures cause { HasCause (D.faults disk.old) (D.faults disk.new) result }

        // A crash at any moment since leaves the pages that were sealed.
        ensures moments { Passes (λ t image. (pages : List Page) → IsSealed pages t.now.contents → ReadsAs pages image) (D.trace disk.old) (D.trace disk.new) }
    {
        match clear_behind(disk, self.end()) {
            Ok(()) => {
                self.ready = true;
                Ok(())
            }
            Err(_) => {
                self.live = false;
                Err(FileFault::DiskFault)
            }
        }
    }

    /// Seals the page behind those that are sealed. The file has to be ready, and the first page is a Header.
    ///
    /// `DiskFault` only where the disk's count rose; the file is then not live. `Memory` leaves the disk and the notes as they were.
    pub fn seal<D: Disk>(&mut self, disk: &mut D, page: &Page) -> Result<(), FileFault>
        requires live { IsTrue self.old.is_live }
        requires ready { IsTrue self.old.is_ready }
        requires suits { IfSome (D.trace disk.old) (λ t. Suits self.old t.now.contents) }
        requires page { IsPage page.now }
        requires few { count_of self.old < 2 ^ 40 }
        requires first { count_of self.old ≡ 0 → IsSome (header_of page.now) }
        ensures ok { OnOk result (self.new ≡ with_page self.old page.now) }
        ensures suits { OnOk result (IfSome (D.trace disk.new) (λ t. Suits self.new t.now.contents)) }
        ensures left { OnOk result (Leaves (λ t bytes. (pages : List Page) → IsSealed pages t.now.contents → bytes ≡ file_of (pages ++ page.now ∷ [])) (D.trace disk.old) (D.trace disk.new)) }
        ensures disk_fault { IsErrOf result FileFault.DiskFault → (self.new ≡ record self.old { is_live = false }) × Rose (D.faults disk.old) (D.faults disk.new) }
        ensures memory { (e : AllocError) → IsErrOf result (FileFault.Memory e) → (self.new ≡ self.old) × (D.trace disk.new ≡ D.trace disk.old) × (D.faults disk.new ≡ D.faults disk.old) }
        ensures foreign { (n : ℕ) → ¬ (IsErrOf result (FileFault.Foreign n)) }
        ensures bad_page { (n : ℕ) → ¬ (IsErrOf result (FileFault.BadPage n)) }
        ensures faults { D.faults disk.old ≤ D.faults disk.new }

        // Where nothing is pending at the start, a crash at any moment since leaves the pages that were sealed, or these and the new page.
        ensures moments { Passes (λ t image. IsSettled t.now → (pages : List Page) → IsSealed pages t.now.contents → ReadsBeforeOrAfter pages page.now image) (D.trace disk.old) (D.trace disk.new) }
    {
        let gate = self.end();
        let params = more_params(self.params, self.count(), page);
        self.gates.reserve(1)?;
        let size = spell_block(page, &mut self.buffer)?;
        match seal_behind(disk, gate, &self.buffer) {
            Ok(()) => {
                self.params = params;
                push_within(&mut self.gates, gate + size as u64);
                Ok(())
            }
            Err(_) => {
                self.live = false;
                Err(FileFault::DiskFault)
            }
        }
    }

    // The place of the spelling of page `i`, and its size.
    fn span(&self, i: u64) -> (u64, usize)
        requires { i < count_of self.now }
        ensures place { result.0 ≡ slice_index self.now.gates i + 1 }
        ensures size { result.0 + result.1 ≡ slice_index self.now.gates (i + 1) }
        ensures fits { result.0 + result.1 < 2 ^ 64 }
    {
        let gate = self.gates[i as usize];
        let next = self.gates[i as usize + 1];
        let place = gate + 1;
        (place, (next - place) as usize)
    }
}

// The spelling of the page and a closed gate, and how many bytes they are.
fn spell_block(page: &Page, out: &mut Vec<u8>) -> Result<usize, AllocError>
    requires { IsPage page.now }
    ensures block { OnOk result (out.new.items ≡ spelling_of page.now ++ 0 ∷ []) }
    ensures size { IfOk result (λ n. n ≡ 1 + length (spelling_of page.now)) }
    ensures short { IfOk result (λ n. n ≤ 2884107) }
{
    out.clear();
    encode(page, out)?;
    out.push(0)?;
    Ok(out.len())
}

// A gate more, for which there is room.
fn push_within(gates: &mut Vec<u64>, gate: u64)
    requires { vec_len gates.old < vec_capacity gates.old }
    ensures { gates.new.items ≡ gates.old.items ++ gate ∷ [] }
{
    let _ = gates.push(gate);
}

// The page that is spelled at the place, as far as the buffer reaches.
fn read_page<D: Disk>(
    alloc: Global,
    disk: &mut D,
    place: u64,
    buffer: &mut [u8],
) -> Result<Option<Page>, FileFault>
    requires { place + length buffer.old < 2 ^ 64 }
    ensures found { IfOk result (IsReadFrom (D.trace disk.old) place (length buffer.old)) }
    ensures fault { IfErr result (λ e. Explains e (Rose (D.faults disk.old) (D.faults disk.new)) (λ n. ⊥) (λ i. ⊥)) }
    ensures same { D.trace disk.new ≡ D.trace disk.old }
    ensures faults { D.faults disk.old ≤ D.faults disk.new }
{
    let count = fill(disk, place, buffer)?;
    match decode(alloc, &buffer[..count])? {
        Some((page, _)) => Ok(Some(page)),
        None => Ok(None),
    }
}

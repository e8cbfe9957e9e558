//! Looking at a file of pages.
ghost use Rattle.std.specs.Prelude.{◌≡◌, ◌≢◌, ◌≤◌, ◌<◌, ◌+◌, ◌↔◌, ℕ, IsTrue, IsErrOf, false, true, length, slice_index, drop, IfOk, IfErr, IfSome, IfNone, OnOk};
ghost use Rattle.outside_io.specs.Causes.{Rose};
ghost use Rattle.page_file.specs.Files.{Stops, IsForeign, IsBadPage};
ghost use Rattle.page_file.specs.Notes.{Suits, end_of};
ghost use Rattle.page_file.specs.Puts.{StandsAt};
ghost use Rattle.page_file.specs.Inner.{IsFirst, IsUnread, Looks, Reads, Explains};

use crate::fault::FileFault;
use crate::front::{Front, front_of};
use crate::page_file::PageFile;
use crate::window::Window;
use outside_io::Disk;
use page_codec::Page;
use std::alloc::Global;

// Over 107 bytes, of which the first is not an open gate.
fn is_foreign(len: u64, window: &Window) -> bool
    ensures { IsTrue result ↔ ((107 < len) × (0 < length window.now) × (slice_index window.now 0 ≢ 1)) }
{
    let bytes = window.bytes();
    len > 107 && bytes.len() > 0 && bytes[0] != 1
}

// The page that is sealed at `place`, where the window stands, and its size with its gate; none where reading stops there.
fn next<D: Disk>(
    alloc: Global,
    disk: &mut D,
    window: &mut Window,
    place: u64,
    len: u64,
    number: u64,
) -> Result<Option<(Page, usize)>, FileFault>
    requires within { place + length window.old ≤ len }
    requires told { IfSome (D.trace disk.old) (λ t. (len ≡ length t.now.contents) × StandsAt place window.old t.now.contents) }
    ensures within { place + length window.new ≤ len }
    ensures told { OnOk result (IfSome (D.trace disk.old) (λ t. StandsAt place window.new t.now.contents)) }
    ensures found { IfOk result (λ o. IfSome o (λ x. IsFirst window.new x.0 x.1)) }
    ensures stops { IfOk result (λ o. IfNone o (IfSome (D.trace disk.old) (λ t. Stops (drop place t.now.contents)))) }
    ensures err { IfErr result (λ e. Explains e (Rose (D.faults disk.old) (D.faults disk.new)) (λ n. ⊥) (λ i. (i ≡ number) × IfSome (D.trace disk.old) (λ t. IsUnread (drop place t.now.contents)))) }
    ensures same { D.trace disk.new ≡ D.trace disk.old }
    ensures faults { D.faults disk.old ≤ D.faults disk.new }
{
    match front_of(alloc, window.bytes())? {
        Front::Sealed { page, size } => return Ok(Some((page, size))),
        Front::Closed => return Ok(None),
        Front::Short => {}
    }
    window.refill(disk, place, len)?;
    let shown = window.len();
    match front_of(alloc, window.bytes())? {
        Front::Sealed { page, size } => Ok(Some((page, size))),
        Front::Closed => Ok(None),
        Front::Short => {
            if shown <= 1 {
                return Ok(None);
            }
            Err(FileFault::BadPage(number))
        }
    }
}

// Notes the page that is sealed where the notes end; false where reading stops there.
fn note_next<D: Disk>(
    alloc: Global,
    disk: &mut D,
    window: &mut Window,
    file: &mut PageFile,
    len: u64,
) -> Result<bool, FileFault>
    requires live { IsTrue file.old.is_live }
    requires within { end_of file.old + length window.old ≤ len }
    requires told { IfSome (D.trace disk.old) (λ t. Looks len file.old window.old t.now.contents) }
    ensures within { OnOk result (end_of file.new + length window.new ≤ len) }
    ensures told { OnOk result (IfSome (D.trace disk.old) (λ t. Looks len file.new window.new t.now.contents)) }
    ensures further { IfOk result (λ more. IsTrue more → end_of file.old < end_of file.new) }
    ensures done { IfOk result (λ more. more ≡ false → IfSome (D.trace disk.old) (λ t. Reads file.new t.now.contents)) }
    ensures err { IfErr result (λ e. Explains e (Rose (D.faults disk.old) (D.faults disk.new)) (λ n. ⊥) (λ i. IfSome (D.trace disk.old) (λ t. IsBadPage i t.now.contents))) }
    ensures ready { file.new.is_ready ≡ file.old.is_ready }
    ensures live { file.new.is_live ≡ file.old.is_live }
    ensures same { D.trace disk.new ≡ D.trace disk.old }
    ensures faults { D.faults disk.old ≤ D.faults disk.new }
{
    let found = match next(alloc, disk, window, file.end(), len, file.count()) {
        Ok(found) => found,
        Err(fault) => return Err(fault),
    };
    let Some((page, size)) = found else {
        return Ok(false);
    };
    window.pass(size);
    file.note(&page, size)?;
    Ok(true)
}

// Notes the pages that are sealed from where the notes end.
fn read_pages<D: Disk>(
    alloc: Global,
    disk: &mut D,
    window: &mut Window,
    file: &mut PageFile,
    len: u64,
) -> Result<(), FileFault>
    requires live { IsTrue file.old.is_live }
    requires within { end_of file.old + length window.old ≤ len }
    requires told { IfSome (D.trace disk.old) (λ t. Looks len file.old window.old t.now.contents) }
    ensures ok { OnOk result (IfSome (D.trace disk.old) (λ t. Reads file.new t.now.contents)) }
    ensures err { IfErr result (λ e. Explains e (Rose (D.faults disk.old) (D.faults disk.new)) (λ n. ⊥) (λ i. IfSome (D.trace disk.old) (λ t. IsBadPage i t.now.contents))) }
    ensures ready { file.new.is_ready ≡ file.old.is_ready }
    ensures live { file.new.is_live ≡ file.old.is_live }
    ensures same { D.trace disk.new ≡ D.trace disk.old }
    ensures faults { D.faults disk.old ≤ D.faults disk.new }
{
    loop {
        match note_next(alloc, disk, window, file, len) {
            Ok(true) => {}
            Ok(false) => return Ok(()),
            Err(fault) => return Err(fault),
        }
    }
}

/// Looks at the disk, and notes the pages that are sealed there. It only reads.
///
/// A read that gives no byte below the disk's length ends the bytes there. `DiskFault` only where the disk's count rose; `Foreign` where it
/// has over 107 bytes and does not begin with an open gate, with their number; `BadPage` with the number of the first page that stands
/// behind an open gate and is not spelled there; `Memory`.
pub fn look<D: Disk>(alloc: Global, disk: &mut D) -> Result<PageFile, FileFault>
    ensures ok { IfOk result (λ f. IfSome (D.trace disk.old) (λ t. Suits f t.now.contents)) }
    ensures ready { IfOk result (λ f. f.is_ready ≡ false) }
    ensures live { IfOk result (λ f. f.is_live ≡ true) }
    ensures foreign { (n : ℕ) → IsErrOf result (FileFault.Foreign n) → IfSome (D.trace disk.old) (λ t. IsForeign t.now.contents × (n ≡ length t.now.contents)) }
    ensures bad_page { (i : ℕ) → IsErrOf result (FileFault.BadPage i) → IfSome (D.trace disk.old) (λ t. (¬ (IsForeign t.now.contents)) × IsBadPage i t.now.contents) }
    ensures disk_fault_only { IsErrOf result FileFault.DiskFault → Rose (D.faults disk.old) (D.faults disk.new) }
    ensures disk { D.trace disk.new ≡ D.trace disk.old }
    ensures faults { D.faults disk.old ≤ D.faults disk.new }
{
    let mut window = Window::new(alloc)?;
    let mut file = PageFile::begin(alloc)?;
    let len = disk.len()?;
    window.refill(disk, 0, len)?;
    if is_foreign(len, &window) {
        return Err(FileFault::Foreign(len));
    }
    match read_pages(alloc, disk, &mut window, &mut file, len) {
        Ok(()) => {
            file.keep(window.into_buffer());
            Ok(file)
        }
        Err(fault) => Err(fault),
    }
}
